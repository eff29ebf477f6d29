// Models, and the three lists of sizes, losses and weights in which the calls take and give them.

use path::storage::Columns;
use std::{array, fmt};

// What the buffers of a test hold before a call, which is no size, no loss and no weight.
// Stays: the C interface is lent plain numbers, so a place that a call left alone is told by a number that no call writes.
pub const MARK: u64 = 99999999999999;

// A size with its loss and its weight.
#[derive(Clone, Copy, PartialEq, Eq)]
pub struct Model {
    pub size: u64,
    pub loss: u64,
    pub weight: u64,
}

impl Model {
    // Stays: the fields of a model.
    pub fn new(size: u64, loss: u64, weight: u64) -> Self {
        Model { size, loss, weight }
    }
}

impl fmt::Display for Model {
    fn fmt<W: fmt::Write>(&self, f: &mut fmt::Formatter<W>) -> fmt::Result {
        write!(f, "{} {} {}", self.size, self.loss, self.weight)
    }
}

// The number of places of three lists: of sizes, losses and weights.
#[derive(Clone, Copy, PartialEq, Eq)]
pub struct Rooms {
    pub sizes: usize,
    pub losses: usize,
    pub weights: usize,
}

impl Rooms {
    // As many places of each.
    pub fn all(places: usize) -> Self {
        Rooms {
            sizes: places,
            losses: places,
            weights: places,
        }
    }
}

impl fmt::Display for Rooms {
    fn fmt<W: fmt::Write>(&self, f: &mut fmt::Formatter<W>) -> fmt::Result {
        write!(f, "{} {} {}", self.sizes, self.losses, self.weights)
    }
}

// Three lists of N places each.
#[derive(Clone, Copy, PartialEq, Eq)]
pub struct Lists<const N: usize> {
    pub sizes: [u64; N],
    pub losses: [u64; N],
    pub weights: [u64; N],
}

impl<const N: usize> Lists<N> {
    // Lists with a number at every place. They are made in a frame of their own, as in what makes lists below, so that of large ones fewer
    // copies stay on the caller's stack.
    #[inline(never)]
    pub fn of(value: u64) -> Self {
        Lists {
            sizes: [value; N],
            losses: [value; N],
            weights: [value; N],
        }
    }

    // Lists as they are before a call.
    pub fn marks() -> Self {
        Lists::of(MARK)
    }

    // The model at place i, where there is one.
    pub fn model(&self, i: usize) -> Option<Model> {
        Some(Model {
            size: *self.sizes.get(i)?,
            loss: *self.losses.get(i)?,
            weight: *self.weights.get(i)?,
        })
    }

    // The models at all places.
    pub fn models(&self) -> [Model; N] {
        array::from_fn(|i| Model {
            size: self.sizes[i],
            loss: self.losses[i],
            weight: self.weights[i],
        })
    }

    // Writes a model at place i, and nothing past the end.
    pub fn put(&mut self, i: usize, model: Model) {
        if i < N {
            self.sizes[i] = model.size;
            self.losses[i] = model.loss;
            self.weights[i] = model.weight;
        }
    }

    // Writes zeros at the first places, as many as are said and as there are.
    pub fn put_zeros(&mut self, places: usize) {
        let n = places.min(N);
        self.sizes[..n].fill(0);
        self.losses[..n].fill(0);
        self.weights[..n].fill(0);
    }

    // All of them, to be read.
    pub fn columns(&self) -> Columns<'_> {
        Columns {
            sizes: &self.sizes,
            losses: &self.losses,
            weights: &self.weights,
        }
    }

    // The first places of each list, to be read, where there are so many.
    pub fn first(&self, rooms: Rooms) -> Option<Columns<'_>> {
        Some(Columns {
            sizes: self.sizes.get(..rooms.sizes)?,
            losses: self.losses.get(..rooms.losses)?,
            weights: self.weights.get(..rooms.weights)?,
        })
    }

    // The first places of each list, to be lent to a call that writes, where there are so many.
    pub fn lend(&mut self, rooms: Rooms) -> Option<(&mut [u64], &mut [u64], &mut [u64])> {
        Some((
            self.sizes.get_mut(..rooms.sizes)?,
            self.losses.get_mut(..rooms.losses)?,
            self.weights.get_mut(..rooms.weights)?,
        ))
    }

    // How many places of each list are not as in others.
    pub fn changes(&self, others: &Self) -> Rooms {
        Rooms {
            sizes: differences(&self.sizes, &others.sizes),
            losses: differences(&self.losses, &others.losses),
            weights: differences(&self.weights, &others.weights),
        }
    }
}

impl<'a, const N: usize> From<Columns<'a>> for Lists<N> {
    // Lists with these at the front, as far as there are places, and else as before a call.
    #[inline(never)]
    fn from(front: Columns<'a>) -> Self {
        let mut made = Lists::marks();
        copy(front.sizes, &mut made.sizes);
        copy(front.losses, &mut made.losses);
        copy(front.weights, &mut made.weights);
        made
    }
}

impl<'a, const N: usize> From<&'a [Model]> for Lists<N> {
    // Lists with these models at the front, as far as there are places, and else as before a call.
    #[inline(never)]
    fn from(models: &'a [Model]) -> Self {
        let mut made = Lists::marks();
        for (i, model) in models.iter().enumerate() {
            made.put(i, *model);
        }
        made
    }
}

// Copies a list to the front of another, as far as both go.
// Stays: the lists may be of different lengths, which `copy_from_slice` does not take.
fn copy(from: &[u64], to: &mut [u64]) {
    for (place, value) in to.iter_mut().zip(from) {
        *place = *value;
    }
}

// The number of places at which two lists differ, as far as both go.
// Stays: a count of places, which no method of the library gives.
pub fn differences<T: PartialEq>(found: &[T], right: &[T]) -> usize {
    found.iter().zip(right).filter(|(a, b)| a != b).count()
}
