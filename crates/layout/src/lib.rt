// Numbers as items of a byte string, low byte first: one item got or put, and the front of a string read to a list of numbers or
// written from one. The table of starts in the scratch and the lists of the calls in C are made of such items.
#![tactic(auto)]

ghost use Rattle.std.specs.Prelude.{◌≡◌, map, ◌++◌, ◌+◌, ◌*◌, ◌^◌, ◌≤◌, ◌<◌, ℕ, length, get_or, drop, refl};
ghost use Rattle.layout.specs.Item.{item, set_item};
ghost use Rattle.layout.specs.Items.{items_to, items_of, bytes_of, signed_of, unsigned_of};
ghost use Rattle.layout.specs.Signs.{unsigned_signed};

// A number that stands in byte strings as an item of W bytes, low byte first.
pub trait Item<const W: usize>: Copy {
    // The number without a sign that the item's bytes spell.
    ghost spelt: { Self → ℕ };
    // The number that an item stands for.
    ghost stands_for: { ℕ → Self };

    // The item that starts at the byte `at`.
    fn get(bytes: &[u8], at: usize) -> Self
        requires { at + W ≤ length bytes.now }
        ensures { result ≡ stands_for (item W bytes.now at) };

    // Puts the number as the item that starts at the byte `at`.
    fn put(self, bytes: &mut [u8], at: usize)
        requires { at + W ≤ length bytes.old }
        ensures { bytes.new ≡ set_item W bytes.old at (spelt self) };

    // The number that an item stands for spells that item.
    ghost back: { (v : ℕ) → v < 256 ^ W → spelt (stands_for v) ≡ v };
}

impl Item<2> for u16 {
    ghost spelt = { λ x. x };

    ghost stands_for = { λ v. v };

    fn get(bytes: &[u8], at: usize) -> u16 {
        u16::from_le_bytes([bytes[at], bytes[at + 1]])
    }

    fn put(self, bytes: &mut [u8], at: usize) {
        bytes[at..at + 2].copy_from_slice(&self.to_le_bytes());
    }

    ghost back = { λ v h. refl };
}

impl Item<8> for u64 {
    ghost spelt = { λ x. x };

    ghost stands_for = { λ v. v };

    fn get(bytes: &[u8], at: usize) -> u64 {
        u64::from_le_bytes([
            bytes[at],
            bytes[at + 1],
            bytes[at + 2],
            bytes[at + 3],
            bytes[at + 4],
            bytes[at + 5],
            bytes[at + 6],
            bytes[at + 7],
        ])
    }

    fn put(self, bytes: &mut [u8], at: usize) {
        bytes[at..at + 8].copy_from_slice(&self.to_le_bytes());
    }

    ghost back = { λ v h. refl };
}

// In the calls sizes and weights are numbers of 64 bits. What does not fit two bytes loses its high ones.
impl Item<2> for u64 {
    ghost spelt = { λ x. x };

    ghost stands_for = { λ v. v };

    fn get(bytes: &[u8], at: usize) -> u64 {
        u64::from(u16::get(bytes, at))
    }

    fn put(self, bytes: &mut [u8], at: usize) {
        let low = (self % 65536) as u16;
        low.put(bytes, at);
    }

    ghost back = { λ v h. refl };
}

// In two's complement.
impl Item<2> for i16 {
    ghost spelt = { unsigned_of };

    ghost stands_for = { signed_of };

    fn get(bytes: &[u8], at: usize) -> i16 {
        u16::get(bytes, at).cast_signed()
    }

    fn put(self, bytes: &mut [u8], at: usize) {
        self.cast_unsigned().put(bytes, at);
    }

    ghost back = { unsigned_signed };
}

// The item at place i.
pub fn item_at<const W: usize, T: Item<W>>(bytes: &[u8], i: usize) -> T
    requires { i < length (items_of W bytes.now) }
    ensures { result ≡ T.stands_for (get_or (items_of W bytes.now) i 0) }
{
    T::get(bytes, W * i)
}

// Reads as many items as the list has places.
pub fn read_items<const W: usize, T: Item<W>>(bytes: &[u8], items: &mut [T])
    requires { W * length items.old ≤ length bytes.now }
    ensures { items.new ≡ map T.stands_for (items_to W bytes.now (length items.old)) }
{
    for (i, item) in items.iter_mut().enumerate() {
        *item = T::get(bytes, W * i);
    }
}

// Writes a list of items to the front of a byte string, whose rest stays.
pub fn write_items<const W: usize, T: Item<W>>(bytes: &mut [u8], items: &[T])
    requires { W * length items.now ≤ length bytes.old }
    ensures { bytes.new ≡ bytes_of W (map T.spelt items.now) ++ drop (W * length items.now) bytes.old }
{
    for (i, item) in items.iter().enumerate() {
        item.put(bytes, W * i);
    }
}

// The item of `width` bytes that starts at the byte `at`.
// Stays: the width as an argument, because this promise holds for every width up to eight, and README names the crate. A width that
// occurs has its `Item`.
pub fn get(bytes: &[u8], at: usize, width: usize) -> u64
    requires { (width ≤ 8) × (at + width ≤ length bytes.now) }
    ensures { result ≡ item width bytes.now at }
{
    let mut value: u64 = 0;
    for i in (0..width).rev() {
        value = value * 256 + u64::from(bytes[at + i]);
    }
    value
}

// Puts `value` as the item of `width` bytes that starts at the byte `at`.
// Stays: as `get`.
pub fn put(bytes: &mut [u8], at: usize, width: usize, value: u64)
    requires { at + width ≤ length bytes.old }
    ensures { bytes.new ≡ set_item width bytes.old at value }
{
    let mut rest = value;
    for i in 0..width {
        bytes[at + i] = (rest % 256) as u8;
        rest /= 256;
    }
}

// Reads as many items of `width` bytes as the list has places.
// Stays: as `get`.
pub fn get_items(bytes: &[u8], width: usize, items: &mut [u64])
    requires { (width ≤ 8) × (width * length items.old ≤ length bytes.now) }
    ensures { items.new ≡ items_to width bytes.now (length items.old) }
{
    for (i, item) in items.iter_mut().enumerate() {
        *item = get(bytes, width * i, width);
    }
}

// Writes a list of items of `width` bytes to the front of a byte string, whose rest stays.
// Stays: as `get`.
pub fn put_items(bytes: &mut [u8], width: usize, items: &[u64])
    requires { width * length items.now ≤ length bytes.old }
    ensures { bytes.new ≡ bytes_of width items.now ++ drop (width * length items.now) bytes.old }
{
    for (i, item) in items.iter().enumerate() {
        put(bytes, width * i, width, *item);
    }
}
