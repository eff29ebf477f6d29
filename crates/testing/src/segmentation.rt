// A segmentation that is right. Nothing here is taken from the calls that are tested.

use crate::lists::Model;
use crate::sample::{LEVEL_MARK, START_MARK};

// The number of segments, their loss, and the buffers of their starts, counted from 1, and their levels, as they are after the call.
#[derive(Clone, Copy, PartialEq, Eq)]
pub struct Segmentation {
    pub segments: usize,
    pub loss: u64,
    pub starts: [u16; 40],
    pub levels: [i16; 40],
}

impl Segmentation {
    // No segments, and buffers as before.
    pub fn none() -> Self {
        Segmentation {
            segments: 0,
            loss: 0,
            starts: [START_MARK; 40],
            levels: [LEVEL_MARK; 40],
        }
    }

    // Adds a segment after the first samples as far as `from`, where there is a place for it.
    pub fn push(&mut self, from: usize, level: i16, loss: u64) -> Option<()> {
        let n = self.segments;
        *self.starts.get_mut(n)? = u16::try_from(from).ok()?.checked_add(1)?;
        *self.levels.get_mut(n)? = level;
        self.segments = n.checked_add(1)?;
        self.loss = self.loss.checked_add(loss)?;
        Some(())
    }
}

// The loss at a level of the samples after the first `from` as far as `to`, where there are so many.
pub fn loss_at(samples: &[i16], from: usize, to: usize, level: i16) -> Option<u64> {
    let mut loss = 0u64;
    for sample in samples.get(from..to)? {
        let distance = u64::from(sample.abs_diff(level));
        loss = loss.checked_add(distance * distance)?;
    }
    Some(loss)
}

// Writes the models of the sizes 1, 2 and so on, with their losses and weights. There is none where one of them lacks its loss or its
// weight.
pub fn put_sizes(losses: &[Option<u64>], weights: &[u64], models: &mut [Model]) -> Option<()> {
    if losses.len() < models.len() || weights.len() < models.len() {
        return None;
    }
    for (((model, loss), weight), size) in models.iter_mut().zip(losses).zip(weights).zip(1u64..) {
        *model = Model::new(size, (*loss)?, *weight);
    }
    Some(())
}
