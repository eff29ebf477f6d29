// The calls in C on signals: each is the call over byte strings of the crate `byte_signals`.

ghost use Rattle.std.specs.Prelude.{◌≡◌};
ghost use Rattle.coding.specs.Coding.{outcome};
ghost use Rattle.path.specs.Model.{lists};
ghost use Rattle.signal.specs.SignalPath.{path_buffers};
ghost use Rattle.byte_signals.specs.Signals.{signal_strings, signal_path_bytes_of, split_strings, split_bytes_of};

use signal::{SignalPathResult, SplitResult};

// The path of a signal cut into segments of min_segment_len samples or more: the sizes up to the limit that can be the cheapest at some
// penalty, with their losses and weights. There is one weight for each size up to the limit, or none, and then a size is its own weight.
// Stays: the parameters are those of the call in C.
#[unsafe(no_mangle)]
pub extern "C" fn foldwig_signal_path(
    samples: &[u8],
    max_segments: u64,
    min_segment_len: u64,
    weights: &[u8],
    path_sizes: &mut [u8],
    path_losses: &mut [u8],
    path_weights: &mut [u8],
    scratch: &mut [u8],
) -> SignalPathResult
    ensures { outcome result
        (path_buffers
        (lists path_sizes.new path_losses.new path_weights.new)
        scratch.new)
        ≡ signal_path_bytes_of (signal_strings samples.now weights.now) max_segments min_segment_len
        (path_buffers
        (lists path_sizes.old path_losses.old path_weights.old)
        scratch.old) }
{
    byte_signals::signal_path(
        samples,
        max_segments,
        min_segment_len,
        weights,
        path_sizes,
        path_losses,
        path_weights,
        scratch,
    )
}

// The segmentation of a signal at the penalty p / q into segments of min_segment_len samples or more, and the signal's path of such
// segments, by weights as in `foldwig_signal_path`.
// Stays: the parameters are those of the call in C.
#[unsafe(no_mangle)]
pub extern "C" fn foldwig_split(
    samples: &[u8],
    max_segments: u64,
    min_segment_len: u64,
    weights: &[u8],
    p: u64,
    q: u64,
    starts: &mut [u8],
    levels: &mut [u8],
    path_sizes: &mut [u8],
    path_losses: &mut [u8],
    path_weights: &mut [u8],
    scratch: &mut [u8],
) -> SplitResult
    ensures { outcome result
        (split_strings
        starts.new levels.new
        (lists path_sizes.new path_losses.new path_weights.new)
        scratch.new)
        ≡ split_bytes_of (signal_strings samples.now weights.now) max_segments min_segment_len p q
        (split_strings
        starts.old levels.old
        (lists path_sizes.old path_losses.old path_weights.old)
        scratch.old) }
{
    byte_signals::split(
        samples,
        max_segments,
        min_segment_len,
        weights,
        p,
        q,
        starts,
        levels,
        path_sizes,
        path_losses,
        path_weights,
        scratch,
    )
}
