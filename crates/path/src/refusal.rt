// Why a call is refused. Each cause has the number that the call answers in its place, where an accepted call answers 0.

ghost use Rattle.std.specs.Prelude.{◌≡◌};
ghost use Rattle.path.specs.Numbers.{number_of};

// The causes, in the order of their numbers.
#[derive(Clone, Copy, Debug, PartialEq, Eq)]
pub enum Refusal {
    // 1: no samples, or no models.
    Empty,

    // 2: too many samples or models.
    TooMany,

    // 3: a limit out of range.
    Limit,

    // 4: a penalty out of range.
    Penalty,

    // 5: a size, a loss or a weight out of range, or lacking.
    Range,

    // 6: a size that is not above the last entry's.
    Size,

    // 7: a loss above the last entry's.
    Loss,

    // 8: a lent path out of order.
    Path,

    // 9: a buffer that is too short.
    Room,

    // 10: a selection from an empty path.
    NoEntry,

    // 11: bytes or a text off the layout.
    Layout,

    // 12: a damaged table.
    Table,

    // 13: a least length out of range.
    LeastLength,

    // 14: a weight that is not above the last one, or weights that are not as many as the limit.
    Weight,
}

impl From<Refusal> for u64 {
    ghost from_gives = { λ refusal number. number ≡ number_of refusal };

    fn from(refusal: Refusal) -> u64 {
        match refusal {
            Refusal::Empty => 1,
            Refusal::TooMany => 2,
            Refusal::Limit => 3,
            Refusal::Penalty => 4,
            Refusal::Range => 5,
            Refusal::Size => 6,
            Refusal::Loss => 7,
            Refusal::Path => 8,
            Refusal::Room => 9,
            Refusal::NoEntry => 10,
            Refusal::Layout => 11,
            Refusal::Table => 12,
            Refusal::LeastLength => 13,
            Refusal::Weight => 14,
        }
    }
}
