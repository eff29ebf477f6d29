// The places of buffers: what they hold before a call, and how they are printed.

use crate::lists::MARK;
use crate::sample::{LEVEL_MARK, START_MARK};
use std::fmt;

// What a buffer holds, with what it holds before a call.
pub trait Place: Copy + PartialEq + fmt::Display {
    const MARK: Self;
}

impl Place for u64 {
    const MARK: u64 = MARK;
}

impl Place for u16 {
    const MARK: u16 = START_MARK;
}

impl Place for i16 {
    const MARK: i16 = LEVEL_MARK;
}

// Some places of a buffer, each after a space. One that is as before is printed as `_`.
#[derive(Clone, Copy)]
pub struct Places<'a, T: Place>(pub &'a [T]);

impl<'a, T: Place> Places<'a, T> {
    // The first n places of a buffer, or all where there are not so many.
    pub fn first(values: &'a [T], n: usize) -> Self {
        Places(values.get(..n).unwrap_or(values))
    }
}

impl<'a, T: Place> fmt::Display for Places<'a, T> {
    fn fmt<W: fmt::Write>(&self, f: &mut fmt::Formatter<W>) -> fmt::Result {
        for place in self.0 {
            if *place == T::MARK {
                write!(f, " _")?;
            } else {
                write!(f, " {place}")?;
            }
        }
        Ok(())
    }
}
