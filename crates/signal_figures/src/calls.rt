// The calls on signals, each made on buffers of 40 places that hold marks and on scratch bytes that are 7. Where the buffers have not
// so many places as are to be lent, no call is made, and there is no outcome.

use crate::outcome::{Outcome, SCRATCH};
use testing::lists::{Lists, Rooms};
use testing::segmentation::Segmentation;

// What a call is given beside the samples: the limit, the least length of a segment, the weights, the penalty p / q, and the number
// of places of each buffer.
#[derive(Clone, Copy)]
pub struct Arguments<'a> {
    pub limit: u64,
    pub min_segment_len: u64,
    pub weights: &'a [u64],
    pub p: u64,
    pub q: u64,
    pub starts: usize,
    pub levels: usize,
    pub path: Rooms,
    pub scratch: usize,
}

impl<'a> Arguments<'a> {
    // A limit and a penalty, with the least length 1, no weights and all places of each buffer.
    // Stays: p and q, since a struct of the two would be taken apart again at each call under test.
    pub fn of(limit: u64, p: u64, q: u64) -> Self {
        Arguments {
            limit,
            min_segment_len: 1,
            weights: &[],
            p,
            q,
            starts: 40,
            levels: 40,
            path: Rooms::all(40),
            scratch: SCRATCH,
        }
    }

    // The same with another least length.
    pub fn with_min_segment_len(mut self, min_segment_len: u64) -> Self {
        self.min_segment_len = min_segment_len;
        self
    }

    // The same with weights.
    pub fn with_weights(mut self, weights: &'a [u64]) -> Self {
        self.weights = weights;
        self
    }

    // The same at another penalty.
    // Stays: p and q, since a struct of the two would be taken apart again at each call under test.
    pub fn with_penalty(mut self, p: u64, q: u64) -> Self {
        self.p = p;
        self.q = q;
        self
    }
}

// The number of scratch bytes that are not a value. To count them is most of what the program does: it goes fast as a sum of u16, since
// the processor adds several of these at a time.
fn others(scratch: &[u8; SCRATCH], value: u8) -> usize {
    let others = scratch
        .iter()
        .fold(0u16, |n, byte| n.wrapping_add(u16::from(*byte != value)));
    others.into()
}

// Splits a signal.
pub fn split(samples: &[i16], given: Arguments<'_>) -> Option<Outcome> {
    let mut segmentation = Segmentation::none();
    let mut path = Lists::marks();
    let mut scratch = [7u8; SCRATCH];
    let (sizes, losses, weights) = path.lend(given.path)?;
    let made = signal::split(
        samples,
        given.limit,
        given.min_segment_len,
        given.weights,
        given.p,
        given.q,
        segmentation.starts.get_mut(..given.starts)?,
        segmentation.levels.get_mut(..given.levels)?,
        sizes,
        losses,
        weights,
        scratch.get_mut(..given.scratch)?,
    );
    segmentation.segments = made.segments;
    segmentation.loss = made.loss;
    Some(Outcome {
        refusal: made.refusal,
        entries: made.entries,
        nonzero: others(&scratch, 0),
        changed: others(&scratch, 7),
        segmentation,
        path,
    })
}

// Calls for the path of a signal. It is lent no starts and no levels.
pub fn signal_path(samples: &[i16], given: Arguments<'_>) -> Option<Outcome> {
    let mut path = Lists::marks();
    let mut scratch = [7u8; SCRATCH];
    let (sizes, losses, weights) = path.lend(given.path)?;
    let made = signal::signal_path(
        samples,
        given.limit,
        given.min_segment_len,
        given.weights,
        sizes,
        losses,
        weights,
        scratch.get_mut(..given.scratch)?,
    );
    Some(Outcome {
        refusal: made.refusal,
        entries: made.entries,
        nonzero: others(&scratch, 0),
        changed: others(&scratch, 7),
        segmentation: Segmentation::none(),
        path,
    })
}
