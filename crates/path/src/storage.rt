// Where models lie. What looks at models looks at them by their places, and need not know how they are stored.

ghost use Rattle.std.specs.Prelude.{◌≡◌, ◌<◌, length, get_or};
ghost use Rattle.path.specs.Model.{Lists, lists, lengths};
ghost use Rattle.path.specs.Refusal.{room_for};

// A size with its loss and its weight, as a host keeps them together.
#[repr(C)]
#[derive(Clone, Copy)]
pub struct Entry {
    pub size: u64,
    pub loss: u64,
    pub weight: u64,
}

// Models that are stored in some way, to be read by their places.
pub trait Models {
    // Their sizes, losses and weights, as three lists.
    ghost held: { Self → Lists };

    // Whether there is room for so many.
    fn has_room(&self, n: usize) -> bool
        ensures { result ≡ room_for n (lengths (held self.now)) };

    fn size_at(&self, i: usize) -> u64
        requires { i < length (held self.now).sizes }
        ensures { result ≡ get_or (held self.now).sizes i 0 };

    fn loss_at(&self, i: usize) -> u64
        requires { i < length (held self.now).losses }
        ensures { result ≡ get_or (held self.now).losses i 0 };

    fn weight_at(&self, i: usize) -> u64
        requires { i < length (held self.now).weights }
        ensures { result ≡ get_or (held self.now).weights i 0 };
}

// Models in three lists of numbers, which need not be of one length.
#[derive(Clone, Copy)]
pub struct Columns<'a> {
    pub sizes: &'a [u64],
    pub losses: &'a [u64],
    pub weights: &'a [u64],
}

impl<'a> Models for Columns<'a> {
    ghost held = { λ c. lists c.sizes.now c.losses.now c.weights.now };

    fn has_room(&self, n: usize) -> bool {
        n <= self.sizes.len() && n <= self.losses.len() && n <= self.weights.len()
    }

    fn size_at(&self, i: usize) -> u64 {
        self.sizes[i]
    }

    fn loss_at(&self, i: usize) -> u64 {
        self.losses[i]
    }

    fn weight_at(&self, i: usize) -> u64 {
        self.weights[i]
    }
}
