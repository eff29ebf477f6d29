// A table as it is read: its values, and whether they are as is due.

ghost use Rattle.std.specs.Prelude.{◌≡◌, ◌≤◌, ◌<◌, length};
ghost use Rattle.std.specs.Option.{MatchOption};
ghost use Rattle.segment.specs.Segment.{max_samples};
ghost use Rattle.stream.specs.Table.{table_len, value, cell_due, row_due, columns_due};
ghost use Rattle.stream.specs.Inner.{CellIn, RowIn, DueFrom};

use crate::{MARK, MAX_ROWS, TABLE_LEN};
use layout::Item;
use path::MAX_LOSS;
use segment::MAX_SAMPLES;

// Bytes that are enough for a table. What they hold may be anything.
#[derive(Clone, Copy)]
pub struct Table<'a> {
    pub bytes: &'a [u8],
    ghost whole: { table_len ≤ length bytes.now },
}

impl<'a> Table<'a> {
    // Bytes as a table, if they are enough.
    pub fn new(bytes: &'a [u8]) -> Option<Self>
        ensures { MatchOption result (length bytes.now < table_len) (λ t. t.bytes.now ≡ bytes.now) }
    {
        if bytes.len() < TABLE_LEN {
            return None;
        }
        Some(Table { bytes })
    }

    // The value of k + 1 segments over the first j samples.
    pub fn value_at(self, k: usize, j: usize) -> u64
        requires { CellIn k j }
        ensures { result ≡ value self.entry.bytes.now k j }
    {
        Item::<8>::get(self.bytes, 8 * (MAX_SAMPLES * k + (j - 1)))
    }

    // Whether a value is as is due: the mark where there are more segments than samples, and else at most 2^44.
    fn cell_due(self, k: usize, j: usize) -> bool
        requires { CellIn k j }
        ensures { result ≡ cell_due self.entry.bytes.now k j }
    {
        let v = self.value_at(k, j);
        if k < j { v <= MAX_LOSS } else { v == MARK }
    }

    // How far the first n columns of row k have to be looked at one by one: where no mark is due not at all, if the bits of all these
    // values together make no number above 2^44. With nothing decided on the way, several values are taken at a time, from both halves of
    // the row.
    fn unsure_to(self, k: usize, n: usize) -> usize
        requires { RowIn k n }
        ensures { DueFrom self.entry.bytes.now k n result }
    {
        let marks = k.min(n);
        let half = (n - marks) / 2;
        let mut bits: u64 = 0;
        for j in marks..n - half {
            bits |= self.value_at(k, j + 1) | self.value_at(k, j + 1 + half);
        }
        if bits <= MAX_LOSS { marks } else { n }
    }

    // Whether marks stand in the first m columns of row k, where they are due. The bits that these values have in common are those of the
    // mark just where each of them is the mark, so that again nothing is decided on the way.
    // Stays: a loop over columns, as a table is bytes, and a value has its place by its row and column.
    fn marks_due(self, k: usize, m: usize) -> bool
        requires { RowIn k m × (m ≤ k) }
        ensures { result ≡ row_due self.entry.bytes.now k m }
    {
        let mut common = MARK;
        for j in 0..m {
            common &= self.value_at(k, j + 1);
        }
        common == MARK
    }

    // Whether the values of row k in the first n columns are as is due. It looks from the last place back, and ends at the first that is
    // not.
    // Stays: a `for` that returns, as the library has no law of `all` over a range turned round.
    fn row_due(self, k: usize, n: usize) -> bool
        requires { RowIn k n }
        ensures { result ≡ row_due self.entry.bytes.now k n }
    {
        let marks = k.min(n);
        if !self.marks_due(k, marks) {
            return false;
        }
        for j in (marks..self.unsure_to(k, n)).rev() {
            if !self.cell_due(k, j + 1) {
                return false;
            }
        }
        true
    }

    // Whether all values of the first n columns are as is due. It looks from the last row back, and ends at the first that is not.
    pub fn columns_due(self, n: usize) -> bool
        requires { n ≤ max_samples }
        ensures { result ≡ columns_due self.entry.bytes.now n }
    {
        // Stays: as in `row_due`.
        for k in (0..MAX_ROWS).rev() {
            if !self.row_due(k, n) {
                return false;
            }
        }
        true
    }
}
