// What the test programs share: models and the three lists in which the calls take them, random numbers and signals, the search
// through all models, segmentations and the plain dynamic programme, answers of calls, and what is printed. Where a helper has no answer it
// gives `None`, which no answer of a call equals, so that a fault of a test itself counts as a mismatch.
#![tactic(auto)]

pub mod answer;
pub mod lists;
pub mod output;
pub mod programme;
pub mod random;
pub mod sample;
pub mod search;
pub mod segmentation;
pub mod signals;
pub mod text;
