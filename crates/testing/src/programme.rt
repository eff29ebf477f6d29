// The least loss of each number of segments by a plain dynamic programme, which tries every start of a last segment. It follows
// the rules alone, and nothing here is taken from the calls that are tested. Within, samples and levels are raised by 32,768.

use crate::sample::{lower, raise};
use crate::segmentation::{Segmentation, loss_at};

// The sums of the first samples and of their squares, for each number of samples.
#[derive(Clone, Copy)]
pub struct Sums {
    sums: [u64; 513],
    squares: [u64; 513],
}

impl Sums {
    // The sums of a signal, where it has at most 512 samples.
    pub fn of(samples: &[i16]) -> Option<Self> {
        let mut made = Sums {
            sums: [0; 513],
            squares: [0; 513],
        };
        let mut sum = 0u64;
        let mut square = 0u64;
        for (i, sample) in samples.iter().enumerate() {
            let v = raise(*sample);
            let next = i.checked_add(1)?;
            sum = sum.checked_add(v)?;
            square = square.checked_add(v.checked_mul(v)?)?;
            *made.sums.get_mut(next)? = sum;
            *made.squares.get_mut(next)? = square;
        }
        Some(made)
    }

    // The level of the samples after the first `from` as far as `to`: the whole number nearest to their mean, and of two equally near
    // ones the lower.
    fn level(&self, from: usize, to: usize) -> Option<u64> {
        let n = to.checked_sub(from)? as u64;
        let sum = between(&self.sums, from, to)?;
        let above = sum.checked_mul(2)?.checked_add(n)?.checked_sub(1)?;
        above.checked_div(n.checked_mul(2)?)
    }

    // Their loss at that level: the sum of squares, less twice the level times the sum, and the square of the level for each sample.
    fn loss(&self, from: usize, to: usize) -> Option<u64> {
        let n = to.checked_sub(from)? as u64;
        let sum = between(&self.sums, from, to)?;
        let square = between(&self.squares, from, to)?;
        let v = self.level(from, to)?;
        let levels = v.checked_mul(v)?.checked_mul(n)?;
        let both = sum.checked_mul(2)?.checked_mul(v)?;
        square.checked_add(levels)?.checked_sub(both)
    }

    // The losses of all segments that end at sample `to`, by where they start.
    fn losses(&self, to: usize) -> Option<[u64; 512]> {
        // Stays: no list beside it: it has the losses of the last segments.
        let mut losses = [0; 512];
        for (from, loss) in losses.get_mut(..to)?.iter_mut().enumerate() {
            *loss = self.loss(from, to)?;
        }
        Some(losses)
    }
}

// The sum from the first `from` as far as `to`, by the sums of the first ones.
fn between(sums: &[u64; 513], from: usize, to: usize) -> Option<u64> {
    sums.get(to)?.checked_sub(*sums.get(from)?)
}

// The start of a last segment, less one, and the loss of all segments with it.
#[derive(Clone, Copy)]
struct LastSegment {
    start: usize,
    loss: u64,
}

// Cells of a table of least losses: the one for k segments over the first j samples is in row k at place j. It is none where there is
// no such segmentation.
#[derive(Clone, Copy)]
pub struct Cells<const ROWS: usize> {
    rows: [[Option<u64>; 513]; ROWS],
}

impl<const ROWS: usize> Cells<ROWS> {
    // The cells over no samples: they have the loss 0 with no segments.
    pub fn new() -> Self {
        let mut made = Cells {
            rows: [[None; 513]; ROWS],
        };
        made.put(0, 0, Some(0));
        made
    }

    // The cells of a signal for up to so many segments, where there are so many rows.
    pub fn solve(samples: &[i16], sums: &Sums, limit: usize) -> Option<Self> {
        let mut made = Cells::new();
        for j in 1..=samples.len() {
            made.put_column(sums, limit, j)?;
        }
        Some(made)
    }

    // The cell for k segments over the first j samples.
    pub fn get(&self, k: usize, j: usize) -> Option<u64> {
        *self.rows.get(k)?.get(j)?
    }

    // The cells over the first j samples, by their rows.
    pub fn column(&self, j: usize) -> [Option<u64>; ROWS] {
        let mut made = [None; ROWS];
        for (cell, row) in made.iter_mut().zip(&self.rows) {
            *cell = row.get(j).copied().flatten();
        }
        made
    }

    // Writes a cell, and nothing past the end.
    pub fn put(&mut self, k: usize, j: usize, cell: Option<u64>) {
        if let Some(row) = self.rows.get_mut(k) {
            if let Some(place) = row.get_mut(j) {
                *place = cell;
            }
        }
    }

    // Writes the cells for 1 to limit segments over the first j samples of a signal with these sums.
    pub fn put_column(&mut self, sums: &Sums, limit: usize, j: usize) -> Option<()> {
        let losses = sums.losses(j)?;
        for k in 0..limit {
            let best = best_start(self.rows.get(k)?, losses.get(..j)?);
            self.put(k.checked_add(1)?, j, best.map(|last| last.loss));
        }
        Some(())
    }

    // The best segmentation of a signal with these sums into so many segments.
    // Stays: a number of segments, and not a list's length.
    pub fn best(&self, samples: &[i16], sums: &Sums, segments: usize) -> Option<Segmentation> {
        let mut ends = [samples.len(); ROWS];
        for k in (0..segments).rev() {
            let to = *ends.get(k.checked_add(1)?)?;
            let losses = sums.losses(to)?;
            let last = best_start(self.rows.get(k)?, losses.get(..to)?)?;
            *ends.get_mut(k)? = last.start;
        }
        let mut made = Segmentation::none();
        for &[from, to] in ends.get(..=segments)?.array_windows::<2>() {
            let level = lower(sums.level(from, to)?);
            made.push(from, level, loss_at(samples, from, to, level)?)?;
        }
        Some(made)
    }
}

// The first of the best starts of a last segment, where the segments before it have these least losses and itself these, by its start.
fn best_start(least: &[Option<u64>], losses: &[u64]) -> Option<LastSegment> {
    let mut best: Option<LastSegment> = None;
    for (start, (before, loss)) in least.iter().zip(losses).enumerate() {
        let sum = before.and_then(|before| before.checked_add(*loss));
        if let Some(loss) = sum {
            if best.is_none_or(|best| loss < best.loss) {
                best = Some(LastSegment { start, loss });
            }
        }
    }
    best
}
