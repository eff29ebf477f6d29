// Random paths of 24 entries, with two neighbours exchanged, one size, loss or weight replaced, or another number of entries said:
// every call refuses those, and only those, that a test of all pairs of entries finds out of order.

use crate::models;
use crate::models::{SMALL, damaged};
use std::io;
use std::num::Saturating;
use std::ops::AddAssign;
use testing::answer::faults;
use testing::lists::{Lists, MARK, Model};
use testing::random::{next, start};
use testing::search::in_range;

// What came of some paths.
#[derive(Clone, Copy, Default)]
struct Counts {
    faults: Saturating<u64>,
    refused: Saturating<u64>,
}

impl AddAssign for Counts {
    fn add_assign(&mut self, more: Counts) {
        self.faults += more.faults;
        self.refused += more.refused;
    }
}

// Whether an entry is larger and heavier than one before it and has a smaller loss.
fn follows(before: Model, entry: Model) -> bool {
    before.size < entry.size && entry.loss < before.loss && before.weight < entry.weight
}

// Whether entries are a path in order: each is in range, and follows each one before it.
fn is_path(entries: &[Model]) -> bool {
    entries.iter().enumerate().all(|(i, entry)| {
        in_range(*entry)
            && entries
                .iter()
                .take(i)
                .all(|before| follows(*before, *entry))
    })
}

// Whether listing the breakpoints of a path is refused.
fn listing_refused(path: &Lists<24>, entries: usize) -> bool {
    let listed = select::breakpoints(
        &path.sizes,
        &path.losses,
        &path.weights,
        entries,
        &mut [MARK; 24],
        &mut [MARK; 24],
    );
    listed.refusal == 8
}

// The comparisons for a path of so many entries. An append that is refused changes nothing. There is no path of more entries than places.
fn check_path(path: Lists<24>, entries: usize) -> Counts {
    let models = path.models();
    let bad = !models.get(..entries).is_some_and(is_path);
    let selected = select::select(&path.sizes, &path.losses, &path.weights, entries, 1, 1);
    let refused = selected.refusal == 8;
    let mut appended = path;
    let made = path::append(
        &mut appended.sizes,
        &mut appended.losses,
        &mut appended.weights,
        entries,
        65535,
        0,
        65535,
    );
    Counts {
        faults: Saturating(faults(&[
            refused == bad,
            listing_refused(&path, entries) == bad,
            (made.refusal == 8) == bad,
            made.refusal == 0 || appended == path,
        ])),
        refused: Saturating(u64::from(refused)),
    }
}

// The path n: now and then with an entry more said than there are, with size and loss of the entry i, or its weight, exchanged with
// those of the one before it, or with one of the three damaged.
fn check_random(n: u64) -> Counts {
    let x = start(2, n);
    let y = next(x);
    let mut path = models::draw(SMALL, SMALL, x, 0);
    let i = (x % 23) as usize + 1;
    let j = i - (y % 2) as usize;
    let k = i - (y / 2 % 2) as usize;
    path.sizes.swap(i, j);
    path.losses.swap(i, j);
    path.weights.swap(i, k);
    path.sizes[j] = damaged(n % 12, path.sizes[j]);
    path.losses[j] = damaged(n / 12 % 12, path.losses[j]);
    path.weights[k] = damaged(n / 144 % 12, path.weights[k]);
    check_path(path, 25 - (y % 5) as usize)
}

pub fn run(rt: &impl Print) -> io::Result<()> {
    let mut counts = Counts::default();
    for i in 0..20000 {
        counts += check_random(i);
    }
    let (faults, refused) = (counts.faults.0, counts.refused.0);
    println!(rt; "20000 damaged paths: mismatches {faults}, refused {refused}")
}
