// Byte strings as what a call on numbers is lent: the lists that it works on are read from them, and written back where it was
// accepted. Models may also be looked at where they lie in their strings.

#![tactic(auto)]

ghost use Rattle.std.specs.Prelude.{◌≡◌, ◌*◌, ◌≤◌, ◌∷◌, [], ◌++◌, length, take};
ghost use Rattle.layout.specs.Items.{items_of, bytes_of};
ghost use Rattle.path.specs.Buffer.{overwritten_to};
ghost use Rattle.coding.specs.Models.{models_coding};
ghost use Rattle.coding.specs.Inner.{strings_of, Storable, Holds, HoldsModels, ModelsRead, ModelsWritten, SegmentsRead, SegmentsWritten};

use layout::{Item, item_at, put, read_items, write_items};
use path::storage::{Columns, Models};

// Models or a path in three byte strings: sizes and weights in two bytes each, losses in eight.
#[derive(Clone, Copy)]
pub struct ByteColumns<'a> {
    pub sizes: &'a [u8],
    pub losses: &'a [u8],
    pub weights: &'a [u8],
}

impl<'a> Models for ByteColumns<'a> {
    ghost held = { λ c. models_coding.numbers (strings_of c) };

    fn has_room(&self, n: usize) -> bool {
        n <= self.sizes.len() / 2 && n <= self.losses.len() / 8 && n <= self.weights.len() / 2
    }

    fn size_at(&self, i: usize) -> u64 {
        item_at::<2, u64>(self.sizes, i)
    }

    fn loss_at(&self, i: usize) -> u64 {
        item_at::<8, u64>(self.losses, i)
    }

    fn weight_at(&self, i: usize) -> u64 {
        item_at::<2, u64>(self.weights, i)
    }
}

impl<'a> ByteColumns<'a> {
    // How many bytes are left over after whole items.
    pub fn spare(&self) -> usize
        ensures { result ≡ models_coding.spare (strings_of self.now) }
    {
        self.sizes.len() % 2 + self.losses.len() % 8 + self.weights.len() % 2
    }

    // Reads as many sizes, losses and weights as the three lists have places.
    pub fn read(&self, size_items: &mut [u64], loss_items: &mut [u64], weight_items: &mut [u64])
        requires { HoldsModels
            (length size_items.old) (length loss_items.old) (length weight_items.old)
            self.now.sizes.now self.now.losses.now self.now.weights.now }
        ensures { ModelsRead self.now.sizes.now self.now.losses.now self.now.weights.now
            size_items.new loss_items.new weight_items.new
            (length size_items.old) (length loss_items.old) (length weight_items.old) }
    {
        read_items::<2, u64>(self.sizes, size_items);
        read_items::<8, u64>(self.losses, loss_items);
        read_items::<2, u64>(self.weights, weight_items);
    }
}

// Writes sizes, losses and weights to the front of three byte strings, whose rest stays.
// Stays: three lists, since of what is written through a struct of `&mut` lists the caller knows nothing afterwards.
pub fn write_models(sizes: &mut [u8], losses: &mut [u8], weights: &mut [u8], models: &Columns<'_>)
    requires { HoldsModels
        (length models.now.sizes.now) (length models.now.losses.now) (length models.now.weights.now)
        sizes.old losses.old weights.old }
    ensures { ModelsWritten sizes.old losses.old weights.old
        models.now.sizes.now models.now.losses.now models.now.weights.now
        sizes.new losses.new weights.new }
{
    write_items::<2, u64>(sizes, models.sizes);
    write_items::<8, u64>(losses, models.losses);
    write_items::<2, u64>(weights, models.weights);
}

// Reads as many starts and levels as the two lists have places.
// Stays: what it asks is of two strings and two lists that are written, which no type holds together.
pub fn read_segments(starts: &[u8], levels: &[u8], start_items: &mut [u16], level_items: &mut [i16])
    requires { Holds 2 2 (length start_items.old) (length level_items.old) starts.now levels.now }
    ensures { SegmentsRead starts.now levels.now
        start_items.new level_items.new
        (length start_items.old) (length level_items.old) }
{
    read_items::<2, u16>(starts, start_items);
    read_items::<2, i16>(levels, level_items);
}

// Writes starts and levels to the front of two byte strings, whose rest stays.
pub fn write_segments(
    starts: &mut [u8],
    levels: &mut [u8],
    start_items: &[u16],
    level_items: &[i16],
)
    requires { Holds 2 2 (length start_items.now) (length level_items.now) starts.old levels.old }
    ensures { SegmentsWritten starts.old levels.old
        start_items.now level_items.now
        starts.new levels.new }
{
    write_items::<2, u16>(starts, start_items);
    write_items::<2, i16>(levels, level_items);
}

// Puts a value after the first items, which stay, and zeros after it as far as item n.
// Stays: the numbers are places and not the lists' lengths.
pub fn store_item<const W: usize, T: Item<W>>(bytes: &mut [u8], kept: usize, n: usize, value: T)
    requires { Storable W bytes.old kept n }
    ensures { bytes.new ≡ bytes_of W (overwritten_to
        (take kept (items_of W bytes.old) ++ (T.spelt value ∷ []))
        n
        (items_of W bytes.old)) }
{
    value.put(bytes, W * kept);
    let after = W * (kept + 1);
    bytes[after..after.max(W * n)].fill(0);
}

// Puts a value after the first items of `width` bytes, which stay, and zeros after it as far as item n.
// Stays: the width as an argument, as in `layout::put`.
pub fn store(bytes: &mut [u8], width: usize, kept: usize, n: usize, value: u64)
    requires { Storable width bytes.old kept n }
    ensures { bytes.new ≡ bytes_of width (overwritten_to
        (take kept (items_of width bytes.old) ++ (value ∷ []))
        n
        (items_of width bytes.old)) }
{
    put(bytes, width * kept, width, value);
    let after = width * (kept + 1);
    bytes[after..after.max(width * n)].fill(0);
}
