// The search for a last segment: the least sum of a value of the table before it and its own loss, and the first start that has it.

ghost use Rattle.std.specs.Prelude.{◌≡◌, ◌+◌, ◌≤◌, ◌<◌};
ghost use Rattle.stream.specs.Inner.{SumsFrom, sum_at, least_of_four, BestFrom, LeastSum, FirstStart};

use crate::table::Table;

// The sums for the starts after more than k samples and fewer than `to`: a value of k + 1 segments before a start, and the own loss of the
// segment from there, which ends at `to`.
#[derive(Clone, Copy)]
pub struct Sums<'a> {
    pub table: Table<'a>,
    pub owns: &'a [u64],
    pub k: usize,
    pub to: usize,
    ghost fit: { SumsFrom table.bytes.now owns.now k to },
}

// The best sum of the starts after `from` samples and later ones.
#[derive(Clone, Copy)]
struct Searched {
    from: usize,
    best: u64,
}

impl<'a> Sums<'a> {
    // The sum for a start after i samples.
    fn sum_at(self, i: usize) -> u64
        requires { (self.k < i) × (i < self.to) }
        ensures { result ≡ sum_at self.entry.table.bytes.now self.entry.owns.now self.entry.k i }
    {
        self.table.value_at(self.k, i) + self.owns[i]
    }

    // The least sum of the four starts before i. The lesser of each two comes first, so that few steps wait for each other.
    fn least_of_four(self, i: usize) -> u64
        requires { (self.k + 4 < i) × (i ≤ self.to) }
        ensures { result ≡ least_of_four self.entry.table.bytes.now self.entry.owns.now self.entry.k i }
    {
        let near = self.sum_at(i - 1).min(self.sum_at(i - 2));
        let far = self.sum_at(i - 3).min(self.sum_at(i - 4));
        near.min(far)
    }

    // The search for the least sum from the latest start down, eight starts at a time, as far as there are eight. It ends where the own
    // loss alone is not below the best sum so far: an earlier start's is no smaller, so that the best sum is that of all starts.
    fn by_eights(self) -> Searched
        ensures { BestFrom self.entry.table.bytes.now self.entry.owns.now self.entry.k self.entry.to result.from result.best }
    {
        let mut i = self.to - 1;
        let mut best = self.sum_at(i);

        // Stays: the new form is no plainer, as `(..).rev().step_by(8)` would not say where the rest begins, which `least` goes on from.
        while self.k + 8 < i {
            if best <= self.owns[i - 1] {
                return Searched {
                    from: self.k + 1,
                    best,
                };
            }
            let near = self.least_of_four(i);
            let far = self.least_of_four(i - 4);
            best = best.min(near.min(far));
            i -= 8;
        }
        Searched { from: i, best }
    }

    // The least sum.
    pub fn least(self) -> u64
        ensures { LeastSum self.entry.table.bytes.now self.entry.owns.now self.entry.k self.entry.to result }
    {
        let found = self.by_eights();
        let mut best = found.best;
        for i in (self.k + 1..found.from).rev() {
            best = best.min(self.sum_at(i));
        }
        best
    }

    // The earliest start with the least sum.
    pub fn first_start(self, least: u64) -> usize
        requires { LeastSum self.table.bytes.now self.owns.now self.k self.to least }
        ensures { FirstStart self.entry.table.bytes.now self.entry.owns.now self.entry.k self.entry.to least result }
    {
        (self.k + 1..self.to)
            .find(|i| self.sum_at(*i) == least)
            .unwrap()
    }
}
