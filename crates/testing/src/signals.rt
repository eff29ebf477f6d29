// Random signals of many kinds. Their samples are drawn raised by 32,768.

use crate::random::next;
use crate::sample::lower;

// The samples of a short signal, in the order of the kinds below: 0 to 2, -2 to 2, -1 to 0, -7 to -1, the lowest 8 and the highest 8
// samples, -100 to 100, the lowest and the highest, these and four between, and all.
#[derive(Clone, Copy)]
enum Values {
    ToTwo,
    AroundZero,
    BelowOne,
    Negative,
    Lowest,
    Highest,
    Hundreds,
    Extremes,
    SixApart,
    All,
}

const VALUES: [Values; 10] = [
    Values::ToTwo,
    Values::AroundZero,
    Values::BelowOne,
    Values::Negative,
    Values::Lowest,
    Values::Highest,
    Values::Hundreds,
    Values::Extremes,
    Values::SixApart,
    Values::All,
];

impl Values {
    // One of them from a random number, raised.
    fn draw(self, x: u64) -> u64 {
        match self {
            Values::ToTwo => 32768 + x % 3,
            Values::AroundZero => 32766 + x % 5,
            Values::BelowOne => 32767 + x % 2,
            Values::Negative => 32761 + x % 7,
            Values::Lowest => x % 8,
            Values::Highest => 65528 + x % 8,
            Values::Hundreds => 32668 + x % 201,
            Values::Extremes => x % 2 * 65535,
            Values::SixApart => x % 6 * 13107,
            Values::All => x % 65536,
        }
    }
}

// Draws the samples of the short signal i, of every kind in turn, and returns the last random number.
pub fn draw_short(i: u64, seed: u64, samples: &mut [i16]) -> u64 {
    let values = VALUES[(i % 10) as usize];
    let mut x = seed;
    for sample in samples.iter_mut() {
        x = next(x);
        *sample = lower(values.draw(x));
    }
    x
}

// A kind of long signals: two, three and five values, constant stretches of two and of three values, steps of 16 samples, slow, even
// and repeated ramps, the lowest and the highest sample, all samples, and a walk.
#[derive(Clone, Copy)]
pub enum Kind {
    Two,
    Three,
    Five,
    TwoStretches,
    ThreeStretches,
    Steps,
    SlowRamp,
    EvenRamp,
    RepeatedRamp,
    Extremes,
    All,
    Walk,
}

pub const KINDS: [Kind; 12] = [
    Kind::Two,
    Kind::Three,
    Kind::Five,
    Kind::TwoStretches,
    Kind::ThreeStretches,
    Kind::Steps,
    Kind::SlowRamp,
    Kind::EvenRamp,
    Kind::RepeatedRamp,
    Kind::Extremes,
    Kind::All,
    Kind::Walk,
];

impl Kind {
    // Sample i of the kind, raised, from a random number and the sample before.
    fn sample(self, i: u64, x: u64, before: u64) -> u64 {
        match self {
            Kind::Two => 32768 + x % 2,
            Kind::Three => 32767 + x % 3,
            Kind::Five => 32766 + x % 5,
            Kind::TwoStretches => if x % 9 == 0 {
                65535 - before % 65536
            } else {
                before
            },
            Kind::ThreeStretches => if x % 12 == 0 {
                32000 + next(x) % 3 * 500
            } else {
                before
            },
            Kind::Steps => 32768 + next(next(i / 16 + 77)) % 4,
            Kind::SlowRamp => 32600 + i % 512 / 3,
            Kind::EvenRamp => 7168 + i % 512 * 100,
            Kind::RepeatedRamp => 32768 + i % 20,
            Kind::Extremes => x % 2 * 65535,
            Kind::All => x % 65536,
            Kind::Walk => before.saturating_sub(3).saturating_add(x % 7),
        }
    }

    // Draws the samples of a signal of the kind.
    pub fn draw(self, seed: u64, samples: &mut [i16]) {
        let mut x = seed;
        let mut before = 32768;
        for (sample, i) in samples.iter_mut().zip(0u64..) {
            x = next(x);
            before = self.sample(i, x, before);
            *sample = lower(before);
        }
    }
}
