// The calls on streaming signals over byte strings. Samples and levels are two bytes each with a sign, starts, sizes and weights
// two without one, losses eight, all with the low byte first. The table is handed on as it is.

#![tactic(auto)]

ghost use Rattle.std.specs.Prelude.{◌≡◌, length};
ghost use Rattle.coding.specs.Coding.{outcome};
ghost use Rattle.path.specs.Model.{lists};
ghost use Rattle.stream.specs.Extend.{stream_buffers};
ghost use Rattle.stream.specs.Inner.{extend_result, split_from_result};
ghost use Rattle.byte_streams.specs.Streams.{extend_bytes_of, segment_strings, split_from_bytes_of};
ghost use Rattle.byte_streams.specs.Inner.{ExtendFits, SplitFromFits};

use byte_signals::READ_SAMPLES;
use coding::{ByteColumns, read_segments, write_models, write_segments};
use layout::read_items;
use path::refusal::Refusal;
use path::storage::Columns;
use stream::{ExtendResult, MAX_ROWS, SplitFromResult};

// An extension by lists with as many places as there are items to look at.
// Stays: three strings and three lists, because of what is written through a struct of `&mut` lists the caller knows nothing afterwards
// (tried).
fn extend_items(
    samples: &[u8],
    sample: i16,
    max_segments: u64,
    table: &mut [u8],
    path_sizes: &mut [u8],
    path_losses: &mut [u8],
    path_weights: &mut [u8],
    sample_items: &mut [i16],
    size_items: &mut [u64],
    loss_items: &mut [u64],
    path_weight_items: &mut [u64],
) -> Result<usize, Refusal>
    requires { ExtendFits
        samples.now (stream_buffers table.old (lists path_sizes.old path_losses.old path_weights.old))
        (length sample_items.old)
        (length size_items.old) (length loss_items.old) (length path_weight_items.old) }
    ensures { outcome (extend_result result)
        (stream_buffers
        table.new
        (lists path_sizes.new path_losses.new path_weights.new))
        ≡ extend_bytes_of samples.now sample max_segments
        (stream_buffers
        table.old
        (lists path_sizes.old path_losses.old path_weights.old)) }
{
    read_items::<2, i16>(samples, sample_items);
    let lent = ByteColumns {
        sizes: path_sizes,
        losses: path_losses,
        weights: path_weights,
    };
    lent.read(size_items, loss_items, path_weight_items);
    let entries = stream::extend_checked(
        sample_items,
        sample,
        max_segments,
        table,
        size_items,
        loss_items,
        path_weight_items,
    )?;
    let path = Columns {
        sizes: size_items,
        losses: loss_items,
        weights: path_weight_items,
    };
    write_models(path_sizes, path_losses, path_weights, &path);
    Ok(entries)
}

// Extends a streaming signal by one sample: its column of the table, and the path so far.
// Stays: three strings, because the C interface lends them so.
pub fn extend(
    samples: &[u8],
    sample: i16,
    max_segments: u64,
    table: &mut [u8],
    path_sizes: &mut [u8],
    path_losses: &mut [u8],
    path_weights: &mut [u8],
) -> ExtendResult
    ensures { outcome result
        (stream_buffers
        table.new
        (lists path_sizes.new path_losses.new path_weights.new))
        ≡ extend_bytes_of samples.now sample max_segments
        (stream_buffers
        table.old
        (lists path_sizes.old path_losses.old path_weights.old)) }
{
    let lent = ByteColumns {
        sizes: path_sizes,
        losses: path_losses,
        weights: path_weights,
    };
    let spare = samples.len() % 2 + lent.spare();
    if spare != 0 {
        return ExtendResult::from(Err(Refusal::Layout));
    }
    let mut sample_items = [0i16; READ_SAMPLES];
    let mut size_items = [0u64; MAX_ROWS];
    let mut loss_items = [0u64; MAX_ROWS];
    let mut path_weight_items = [0u64; MAX_ROWS];
    let n = (samples.len() / 2).min(READ_SAMPLES);
    let s = (path_sizes.len() / 2).min(MAX_ROWS);
    let l = (path_losses.len() / 8).min(MAX_ROWS);
    let w = (path_weights.len() / 2).min(MAX_ROWS);
    ExtendResult::from(extend_items(
        samples,
        sample,
        max_segments,
        table,
        path_sizes,
        path_losses,
        path_weights,
        &mut sample_items[..n],
        &mut size_items[..s],
        &mut loss_items[..l],
        &mut path_weight_items[..w],
    ))
}

// A split from a table by lists with as many places as there are items to look at.
// Stays: p and q as they are lent, because six checks come before that of the penalty.
fn split_from_items(
    samples: &[u8],
    max_segments: u64,
    p: u64,
    q: u64,
    table: &[u8],
    starts: &mut [u8],
    levels: &mut [u8],
    sample_items: &mut [i16],
    start_items: &mut [u16],
    level_items: &mut [i16],
) -> Result<(usize, u64), Refusal>
    requires { SplitFromFits
        samples.now (segment_strings starts.old levels.old)
        (length sample_items.old) (length start_items.old) (length level_items.old) }
    ensures { outcome (split_from_result result) (segment_strings starts.new levels.new)
        ≡ split_from_bytes_of samples.now max_segments p q table.now
        (segment_strings starts.old levels.old) }
{
    read_items::<2, i16>(samples, sample_items);
    read_segments(starts, levels, start_items, level_items);
    let split = stream::split_from_checked(
        sample_items,
        max_segments,
        p,
        q,
        table,
        start_items,
        level_items,
    )?;
    write_segments(starts, levels, start_items, level_items);
    Ok(split)
}

// The segmentation of a streaming signal at the penalty p / q from its table.
// Stays: p and q, because the C interface lends them so.
pub fn split_from(
    samples: &[u8],
    max_segments: u64,
    p: u64,
    q: u64,
    table: &[u8],
    starts: &mut [u8],
    levels: &mut [u8],
) -> SplitFromResult
    ensures { outcome result (segment_strings starts.new levels.new)
        ≡ split_from_bytes_of samples.now max_segments p q table.now
        (segment_strings starts.old levels.old) }
{
    if samples.len() % 2 + starts.len() % 2 + levels.len() % 2 != 0 {
        return SplitFromResult::from(Err(Refusal::Layout));
    }
    let mut sample_items = [0i16; READ_SAMPLES];
    let mut start_items = [0u16; MAX_ROWS];
    let mut level_items = [0i16; MAX_ROWS];
    let n = (samples.len() / 2).min(READ_SAMPLES);
    let a = (starts.len() / 2).min(MAX_ROWS);
    let b = (levels.len() / 2).min(MAX_ROWS);
    SplitFromResult::from(split_from_items(
        samples,
        max_segments,
        p,
        q,
        table,
        starts,
        levels,
        &mut sample_items[..n],
        &mut start_items[..a],
        &mut level_items[..b],
    ))
}
