// The answer of an append or a build in plain numbers. Here alone the tests of a `PathResult` are read.

use path::PathResult;
use std::fmt;

// Stays: the refusal is a number with the rest beside it, as the C interface answers it, since that is what is compared and printed.
#[derive(Clone, Copy, PartialEq, Eq)]
pub struct Answer {
    pub refusal: u64,
    pub entries: usize,
    pub tests: u64,
}

// The tests that a call reports.
pub fn tests_of(made: PathResult) -> u64 {
    let tests = made.tests;
    path::tally::count(tests)
}

impl From<PathResult> for Answer {
    fn from(made: PathResult) -> Answer {
        Answer {
            refusal: made.refusal,
            entries: made.entries,
            tests: tests_of(made),
        }
    }
}

impl fmt::Display for Answer {
    fn fmt<W: fmt::Write>(&self, f: &mut fmt::Formatter<W>) -> fmt::Result {
        write!(
            f,
            "refusal {} entries {} tests {}",
            self.refusal, self.entries, self.tests,
        )
    }
}

// How many of some facts do not hold.
pub fn faults(facts: &[bool]) -> u64 {
    facts.iter().filter(|holds| !**holds).count() as u64
}
