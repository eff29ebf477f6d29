// The calls on signals over byte strings. Samples and levels are two bytes each with a sign, starts, sizes and weights two without one,
// losses eight, all with the low byte first.

#![tactic(auto)]

ghost use Rattle.std.specs.Prelude.{◌≡◌, ◌/◌, min, length, drop};
ghost use Rattle.coding.specs.Coding.{outcome};
ghost use Rattle.layout.specs.Items.{items_of};
ghost use Rattle.path.specs.Model.{lists};
ghost use Rattle.weights.specs.Weights.{all_in_range};
ghost use Rattle.weights.specs.Inner.{folded};
ghost use Rattle.least.specs.Segmentation.{max_segments};
ghost use Rattle.signal.specs.SignalPath.{path_buffers};
ghost use Rattle.byte_signals.specs.Signals.{signal_strings, signal_coding, signal_path_bytes_of, split_strings, split_bytes_of};
ghost use Rattle.byte_signals.specs.Inner.{read_weights, strings_in, PathFits, SplitFits};

use coding::{ByteColumns, read_segments, write_models, write_segments};
use layout::{item_at, read_items};
use least::MAX_SEGMENTS;
use path::refusal::Refusal;
use path::storage::Columns;
use segment::MAX_SAMPLES;
use signal::{SignalPathResult, SplitResult};

// The most samples that are read, one more than a signal may have: too many stay too many.
pub const READ_SAMPLES: usize = MAX_SAMPLES + 1;

// The most weights that are kept, one more than the largest limit: too many stay too many.
const READ_WEIGHTS: usize = MAX_SEGMENTS + 1;

// A signal in byte strings, its samples and weights, with the most segments and the least length of a segment, as they are lent.
#[derive(Clone, Copy)]
struct ByteSignal<'a> {
    samples: &'a [u8],
    max_segments: u64,
    min_segment_len: u64,
    weights: &'a [u8],
}

impl<'a> ByteSignal<'a> {
    // How many bytes are left over after whole items.
    fn spare(&self) -> usize
        ensures { result ≡ signal_coding.spare (strings_in self.now) }
    {
        self.samples.len() % 2 + self.weights.len() % 2
    }
}

// Whether the weights after the first 32 are in range.
// Stays: `all` over a range of places reads each item by its place too, and is no plainer.
fn rest_in_range(weights: &[u8]) -> bool
    ensures { result ≡ all_in_range (drop max_segments (items_of 2 weights.now)) }
{
    for i in MAX_SEGMENTS..weights.len() / 2 {
        if !path::weight_in_range(item_at::<2, u64>(weights, i)) {
            return false;
        }
    }
    true
}

// Reads the first weights, 33 at most, and looks at all. Where one after the first 32 is out of range, the last one read is 0, so that
// those read are refused as all of them are.
// Stays: a value for a refusal, because of what the call on numbers is lent, a list of weights alone, which it checks itself.
fn read_weights(weights: &[u8], items: &mut [u64])
    requires { length items.old ≡ min (length weights.now / 2) read_weights }
    ensures { items.new ≡ folded max_segments (items_of 2 weights.now) }
{
    read_items::<2, u64>(weights, items);
    if MAX_SEGMENTS < items.len() && !rest_in_range(weights) {
        items[MAX_SEGMENTS] = 0;
    }
}

// A path call by lists with as many places as there are items to look at.
// Stays: three lists, since of what is written through a struct of `&mut` lists the caller knows nothing afterwards.
fn path_items(
    signal: &ByteSignal,
    path_sizes: &mut [u8],
    path_losses: &mut [u8],
    path_weights: &mut [u8],
    scratch: &mut [u8],
    sample_items: &mut [i16],
    weight_items: &mut [u64],
    size_items: &mut [u64],
    loss_items: &mut [u64],
    path_weight_items: &mut [u64],
) -> SignalPathResult
    requires { PathFits
        (strings_in signal.now)
        (path_buffers (lists path_sizes.old path_losses.old path_weights.old) scratch.old)
        (length sample_items.old) (length weight_items.old)
        (length size_items.old) (length loss_items.old) (length path_weight_items.old) }
    ensures { outcome result
        (path_buffers
        (lists path_sizes.new path_losses.new path_weights.new)
        scratch.new)
        ≡ signal_path_bytes_of (strings_in signal.now) signal.now.max_segments signal.now.min_segment_len
        (path_buffers
        (lists path_sizes.old path_losses.old path_weights.old)
        scratch.old) }
{
    read_items::<2, i16>(signal.samples, sample_items);
    read_weights(signal.weights, weight_items);
    let lent = ByteColumns {
        sizes: path_sizes,
        losses: path_losses,
        weights: path_weights,
    };
    lent.read(size_items, loss_items, path_weight_items);
    let found = signal::signal_path(
        sample_items,
        signal.max_segments,
        signal.min_segment_len,
        weight_items,
        size_items,
        loss_items,
        path_weight_items,
        scratch,
    );
    // Stays: the number, because README names `signal::signal_path`, whose answer has a refusal by its number.
    if found.refusal != 0 {
        return found;
    }
    let path = Columns {
        sizes: size_items,
        losses: loss_items,
        weights: path_weight_items,
    };
    write_models(path_sizes, path_losses, path_weights, &path);
    found
}

// The path of a signal cut into segments of min_segment_len samples or more: the sizes up to the limit that can be the cheapest at some
// penalty, with their losses and weights. There is one weight for each size up to the limit, or none, and then a size is its own weight.
// Stays: the parameters are those of the call in C.
pub fn signal_path(
    samples: &[u8],
    max_segments: u64,
    min_segment_len: u64,
    weights: &[u8],
    path_sizes: &mut [u8],
    path_losses: &mut [u8],
    path_weights: &mut [u8],
    scratch: &mut [u8],
) -> SignalPathResult
    ensures { outcome result
        (path_buffers
        (lists path_sizes.new path_losses.new path_weights.new)
        scratch.new)
        ≡ signal_path_bytes_of (signal_strings samples.now weights.now) max_segments min_segment_len
        (path_buffers
        (lists path_sizes.old path_losses.old path_weights.old)
        scratch.old) }
{
    let signal = ByteSignal {
        samples,
        max_segments,
        min_segment_len,
        weights,
    };
    let lent = ByteColumns {
        sizes: path_sizes,
        losses: path_losses,
        weights: path_weights,
    };
    if signal.spare() + lent.spare() != 0 {
        return SignalPathResult::from(Err(Refusal::Layout));
    }
    let mut sample_items = [0i16; READ_SAMPLES];
    let mut weight_items = [0u64; READ_WEIGHTS];
    let mut size_items = [0u64; MAX_SEGMENTS];
    let mut loss_items = [0u64; MAX_SEGMENTS];
    let mut path_weight_items = [0u64; MAX_SEGMENTS];
    let n = (samples.len() / 2).min(READ_SAMPLES);
    let v = (weights.len() / 2).min(READ_WEIGHTS);
    let s = (path_sizes.len() / 2).min(MAX_SEGMENTS);
    let l = (path_losses.len() / 8).min(MAX_SEGMENTS);
    let w = (path_weights.len() / 2).min(MAX_SEGMENTS);
    path_items(
        &signal,
        path_sizes,
        path_losses,
        path_weights,
        scratch,
        &mut sample_items[..n],
        &mut weight_items[..v],
        &mut size_items[..s],
        &mut loss_items[..l],
        &mut path_weight_items[..w],
    )
}

// A split by lists with as many places as there are items to look at.
// Stays: three lists, since of what is written through a struct of `&mut` lists the caller knows nothing afterwards.
fn split_items(
    signal: &ByteSignal,
    p: u64,
    q: u64,
    starts: &mut [u8],
    levels: &mut [u8],
    path_sizes: &mut [u8],
    path_losses: &mut [u8],
    path_weights: &mut [u8],
    scratch: &mut [u8],
    sample_items: &mut [i16],
    weight_items: &mut [u64],
    start_items: &mut [u16],
    level_items: &mut [i16],
    size_items: &mut [u64],
    loss_items: &mut [u64],
    path_weight_items: &mut [u64],
) -> SplitResult
    requires { SplitFits
        (strings_in signal.now)
        (split_strings starts.old levels.old (lists path_sizes.old path_losses.old path_weights.old) scratch.old)
        (length sample_items.old) (length weight_items.old)
        (length start_items.old) (length level_items.old)
        (length size_items.old) (length loss_items.old) (length path_weight_items.old) }
    ensures { outcome result
        (split_strings
        starts.new levels.new
        (lists path_sizes.new path_losses.new path_weights.new)
        scratch.new)
        ≡ split_bytes_of (strings_in signal.now) signal.now.max_segments signal.now.min_segment_len p q
        (split_strings
        starts.old levels.old
        (lists path_sizes.old path_losses.old path_weights.old)
        scratch.old) }
{
    read_items::<2, i16>(signal.samples, sample_items);
    read_weights(signal.weights, weight_items);
    read_segments(starts, levels, start_items, level_items);
    let lent = ByteColumns {
        sizes: path_sizes,
        losses: path_losses,
        weights: path_weights,
    };
    lent.read(size_items, loss_items, path_weight_items);
    let split = signal::split(
        sample_items,
        signal.max_segments,
        signal.min_segment_len,
        weight_items,
        p,
        q,
        start_items,
        level_items,
        size_items,
        loss_items,
        path_weight_items,
        scratch,
    );
    // Stays: the number, because README names `signal::split`, whose answer has a refusal by its number.
    if split.refusal != 0 {
        return split;
    }
    write_segments(starts, levels, start_items, level_items);
    let path = Columns {
        sizes: size_items,
        losses: loss_items,
        weights: path_weight_items,
    };
    write_models(path_sizes, path_losses, path_weights, &path);
    split
}

// The segmentation of a signal at the penalty p / q into segments of min_segment_len samples or more, and the signal's path of such
// segments, by weights as in `signal_path`.
// Stays: the parameters are those of the call in C.
pub fn split(
    samples: &[u8],
    max_segments: u64,
    min_segment_len: u64,
    weights: &[u8],
    p: u64,
    q: u64,
    starts: &mut [u8],
    levels: &mut [u8],
    path_sizes: &mut [u8],
    path_losses: &mut [u8],
    path_weights: &mut [u8],
    scratch: &mut [u8],
) -> SplitResult
    ensures { outcome result
        (split_strings
        starts.new levels.new
        (lists path_sizes.new path_losses.new path_weights.new)
        scratch.new)
        ≡ split_bytes_of (signal_strings samples.now weights.now) max_segments min_segment_len p q
        (split_strings
        starts.old levels.old
        (lists path_sizes.old path_losses.old path_weights.old)
        scratch.old) }
{
    let signal = ByteSignal {
        samples,
        max_segments,
        min_segment_len,
        weights,
    };
    let lent = ByteColumns {
        sizes: path_sizes,
        losses: path_losses,
        weights: path_weights,
    };
    if signal.spare() + starts.len() % 2 + levels.len() % 2 + lent.spare() != 0 {
        return SplitResult {
            refusal: u64::from(Refusal::Layout),
            segments: 0,
            loss: 0,
            entries: 0,
        };
    }
    let mut sample_items = [0i16; READ_SAMPLES];
    let mut weight_items = [0u64; READ_WEIGHTS];
    let mut start_items = [0u16; MAX_SEGMENTS];
    let mut level_items = [0i16; MAX_SEGMENTS];
    let mut size_items = [0u64; MAX_SEGMENTS];
    let mut loss_items = [0u64; MAX_SEGMENTS];
    let mut path_weight_items = [0u64; MAX_SEGMENTS];
    let n = (samples.len() / 2).min(READ_SAMPLES);
    let v = (weights.len() / 2).min(READ_WEIGHTS);
    let a = (starts.len() / 2).min(MAX_SEGMENTS);
    let b = (levels.len() / 2).min(MAX_SEGMENTS);
    let s = (path_sizes.len() / 2).min(MAX_SEGMENTS);
    let l = (path_losses.len() / 8).min(MAX_SEGMENTS);
    let w = (path_weights.len() / 2).min(MAX_SEGMENTS);
    split_items(
        &signal,
        p,
        q,
        starts,
        levels,
        path_sizes,
        path_losses,
        path_weights,
        scratch,
        &mut sample_items[..n],
        &mut weight_items[..v],
        &mut start_items[..a],
        &mut level_items[..b],
        &mut size_items[..s],
        &mut loss_items[..l],
        &mut path_weight_items[..w],
    )
}
