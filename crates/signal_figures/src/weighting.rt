// Weights that random calls are lent, what is right for them, and damaged ones. Nothing here is taken from the calls that are tested.

use path::refusal::Refusal;
use std::array;
use testing::lists::MARK;
use testing::random::next;

// By how much weights rise: by 1, so that each equals its size; by little; by much; and by 1 or by much. 32 weights stay in range.
#[derive(Clone, Copy)]
enum Rise {
    One,
    Little,
    Much,
    OneOrMuch,
}

impl Rise {
    // By how much a weight rises, from a random number.
    fn draw(self, x: u64) -> u64 {
        match self {
            Rise::One => 1,
            Rise::Little => x % 3 + 1,
            Rise::Much => x % 2000 + 1,
            Rise::OneOrMuch => x % 2 * 2046 + 1,
        }
    }
}

// The kinds of weights. One is none.
const KINDS: [Option<Rise>; 5] = [
    None,
    Some(Rise::One),
    Some(Rise::Little),
    Some(Rise::Much),
    Some(Rise::OneOrMuch),
];

// Weights, of which the first are given.
// Stays: a buffer with a number beside it, since there is no heap (project rule); `slice` gives these.
#[derive(Clone, Copy)]
pub struct Weights {
    values: [u64; 40],
    count: usize,
}

// The weights 1, 2, 3 and so on, which equal the sizes.
pub fn sizes<const N: usize>() -> [u64; N] {
    array::from_fn(|i| (i as u64).saturating_add(1))
}

// What stands in place of a weight that comes after another, from a random number: one out of range, one not above the other, or the
// weight itself.
fn damaged(before: u64, weight: u64, x: u64) -> u64 {
    match x % 8 {
        0 => 0,
        1 => 65536,
        2 => before,
        3 => before.saturating_sub(1),
        _ => weight,
    }
}

impl Weights {
    // Weights of a random kind, as many as a limit.
    pub fn draw(limit: usize, x: u64) -> Self {
        let mut made = Weights {
            values: [MARK; 40],
            count: 0,
        };
        if let Some(rise) = KINDS[(x % 5) as usize] {
            let mut y = next(x);
            let mut weight = 0u64;
            for value in made.values.iter_mut() {
                y = next(y);
                weight = weight.saturating_add(rise.draw(y));
                *value = weight;
            }
            made.count = limit;
        }
        made
    }

    // Those that are given, where there are so many.
    pub fn slice(&self) -> Option<&[u64]> {
        self.values.get(..self.count)
    }

    // The weight of each size.
    pub fn right(&self) -> [u64; 40] {
        if self.count == 0 {
            sizes()
        } else {
            self.values
        }
    }

    // The same with one of as many weights as a limit damaged, and at times with one more of them given or one fewer.
    pub fn damage(&self, limit: usize, x: u64) -> Option<Self> {
        let y = next(x);
        let i = (y as usize).checked_rem(limit)?;
        let before = match i.checked_sub(1) {
            Some(last) => *self.values.get(last)?,
            None => 0,
        };
        let mut made = *self;
        let place = made.values.get_mut(i)?;
        *place = damaged(before, *place, x);
        made.count = self
            .count
            .saturating_add((y / 64 % 3) as usize)
            .saturating_sub(1);
        Some(made)
    }
}

// The refusal that is due to the weights of a call with a limit.
pub fn check(weights: &[u64], limit: usize) -> Result<(), Refusal> {
    if !weights.iter().all(|weight| (1..65536).contains(weight)) {
        return Err(Refusal::Range);
    }
    if weights.is_empty() {
        return Ok(());
    }
    let rising = weights
        .iter()
        .zip(weights.iter().skip(1))
        .all(|(a, b)| a < b);
    if weights.len() == limit && rising {
        Ok(())
    } else {
        Err(Refusal::Weight)
    }
}
