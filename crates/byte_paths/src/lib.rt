// The calls on a path over byte strings. An append, a selection and a listing of breakpoints read and write the bytes where they lie. A
// build reads the models to lists of its own.

#![tactic(auto)]

ghost use Rattle.std.specs.Prelude.{◌≡◌, ◌+◌, length};
ghost use Rattle.coding.specs.Coding.{outcome};
ghost use Rattle.coding.specs.Models.{models_coding};
ghost use Rattle.coding.specs.Inner.{strings_of};
ghost use Rattle.path.specs.Model.{model, lists};
ghost use Rattle.path.specs.Update.{Fraction};
ghost use Rattle.path.specs.Inner.{model_of, answer_of};
ghost use Rattle.select.specs.Inner.{listed_as};
ghost use Rattle.byte_paths.specs.Paths.{append_bytes_of, select_bytes_of, fractions, fractions_coding, breakpoints_bytes_of};
ghost use Rattle.byte_paths.specs.Inner.{BuildFits, build_bytes_with, append_encoded, breakpoints_encoded, ListableIn, WrittenIn};

use build::Method;
use coding::{ByteColumns, store_item, write_models};
use layout::Item;
use path::refusal::Refusal;
use path::storage::{Columns, Entry};
use path::{Kept, MAX_MODELS, PathResult};
use select::{BreakpointsResult, SelectResult};

// The most models of a build that are read: one more than there may be, so that too many stay too many.
const MODELS_READ: usize = MAX_MODELS + 1;

// An append where no byte is left over.
// Stays: three lists, since of what is written through a struct of `&mut` lists the caller knows nothing afterwards.
fn append_whole(
    sizes: &mut [u8],
    losses: &mut [u8],
    weights: &mut [u8],
    entries: usize,
    new: Entry,
) -> Result<Kept, Refusal>
    requires { models_coding.spare (lists sizes.old losses.old weights.old) ≡ 0 }
    ensures { outcome (answer_of result) (lists sizes.new losses.new weights.new)
        ≡ append_encoded (lists sizes.old losses.old weights.old) entries (model_of new) }
{
    let models = ByteColumns {
        sizes,
        losses,
        weights,
    };
    let judged = path::judge(&models, entries, new)?;
    if let Some(kept) = judged.after {
        store_item::<2, u64>(sizes, kept, entries, new.size);
        store_item::<8, u64>(losses, kept, entries, new.loss);
        store_item::<2, u64>(weights, kept, entries, new.weight);
    }
    Ok(judged.path)
}

// Appends a model to the path of so many entries. The path then fills the front of the three byte strings.
// Stays: the parameters are those of the call in C.
pub fn append(
    sizes: &mut [u8],
    losses: &mut [u8],
    weights: &mut [u8],
    entries: usize,
    size: u64,
    loss: u64,
    weight: u64,
) -> PathResult
    ensures { outcome result (lists sizes.new losses.new weights.new)
        ≡ append_bytes_of (lists sizes.old losses.old weights.old) entries (model size loss weight) }
{
    let models = ByteColumns {
        sizes,
        losses,
        weights,
    };
    if models.spare() != 0 {
        return PathResult::from(Err(Refusal::Layout));
    }
    let new = Entry { size, loss, weight };
    PathResult::from(append_whole(sizes, losses, weights, entries, new))
}

// A build in three lists with as many places as there are models to read.
// Stays: three lists, since of what is written through a struct of `&mut` lists the caller knows nothing afterwards.
fn build_items<M: Method>(
    models: &ByteColumns,
    path_sizes: &mut [u8],
    path_losses: &mut [u8],
    path_weights: &mut [u8],
    size_items: &mut [u64],
    loss_items: &mut [u64],
    weight_items: &mut [u64],
) -> Result<Kept, Refusal>
    requires { BuildFits
        (strings_of models.now)
        (lists path_sizes.old path_losses.old path_weights.old)
        (length size_items.old) (length loss_items.old) (length weight_items.old) }
    ensures { outcome (answer_of result) (lists path_sizes.new path_losses.new path_weights.new)
        ≡ build_bytes_with M.path M.tests
        (strings_of models.now)
        (lists path_sizes.old path_losses.old path_weights.old) }
{
    models.read(size_items, loss_items, weight_items);
    let rooms = [
        path_sizes.len() / 2,
        path_losses.len() / 8,
        path_weights.len() / 2,
    ];
    let made = build::build_within::<M>(size_items, loss_items, weight_items, rooms);
    if made.is_err() {
        return made;
    }
    let path = Columns {
        sizes: size_items,
        losses: loss_items,
        weights: weight_items,
    };
    write_models(path_sizes, path_losses, path_weights, &path);
    made
}

// Builds the path of a list of models in three byte strings, by the method that M stands for.
// Stays: the parameters are those of the call in C.
pub fn build_with<M: Method>(
    sizes: &[u8],
    losses: &[u8],
    weights: &[u8],
    path_sizes: &mut [u8],
    path_losses: &mut [u8],
    path_weights: &mut [u8],
) -> PathResult
    ensures { outcome result (lists path_sizes.new path_losses.new path_weights.new)
        ≡ build_bytes_with M.path M.tests
        (lists sizes.now losses.now weights.now)
        (lists path_sizes.old path_losses.old path_weights.old) }
{
    let models = ByteColumns {
        sizes,
        losses,
        weights,
    };
    let buffers = ByteColumns {
        sizes: path_sizes,
        losses: path_losses,
        weights: path_weights,
    };
    if models.spare() + buffers.spare() != 0 {
        return PathResult::from(Err(Refusal::Layout));
    }
    let mut size_items = [0u64; MODELS_READ];
    let mut loss_items = [0u64; MODELS_READ];
    let mut weight_items = [0u64; MODELS_READ];
    let a = (sizes.len() / 2).min(MODELS_READ);
    let b = (losses.len() / 8).min(MODELS_READ);
    let c = (weights.len() / 2).min(MODELS_READ);
    PathResult::from(build_items::<M>(
        &models,
        path_sizes,
        path_losses,
        path_weights,
        &mut size_items[..a],
        &mut loss_items[..b],
        &mut weight_items[..c],
    ))
}

// The entry of a path at the penalty p / q.
// Stays: the parameters are those of the call in C.
pub fn select(
    sizes: &[u8],
    losses: &[u8],
    weights: &[u8],
    entries: usize,
    p: u64,
    q: u64,
) -> SelectResult
    ensures { result ≡ select_bytes_of (lists sizes.now losses.now weights.now) entries p q }
{
    let models = ByteColumns {
        sizes,
        losses,
        weights,
    };
    if models.spare() != 0 {
        return SelectResult::from(Err(Refusal::Layout));
    }
    SelectResult::from(select::select_from(&models, entries, p, q))
}

// Writes so many breakpoints, which are those of a path of one entry more. They go by losses and weights.
// Stays: a number beside two buffers, which may be longer.
pub fn write_breakpoints(
    models: &ByteColumns,
    count: usize,
    numerators: &mut [u8],
    denominators: &mut [u8],
)
    requires { ListableIn models.now.losses.now models.now.weights.now count numerators.old denominators.old }
    ensures { WrittenIn 8 (λ (b : Fraction). b.numerator)
        models.now.losses.now models.now.weights.now numerators.old numerators.new count
        × WrittenIn 2 (λ (b : Fraction). b.denominator)
        models.now.losses.now models.now.weights.now denominators.old denominators.new count }
{
    for i in 0..count {
        let found = select::breakpoint_at(models, i);
        Item::<8>::put(found.numerator, numerators, 8 * i);
        Item::<2>::put(found.denominator, denominators, 2 * i);
    }
}

// A listing where no byte is left over.
// Stays: a number beside what is lent, since it may be more than there are models, which is refused under 8.
fn breakpoints_whole(
    models: &ByteColumns,
    entries: usize,
    numerators: &mut [u8],
    denominators: &mut [u8],
) -> Result<usize, Refusal>
    requires { models_coding.spare (strings_of models.now)
        + fractions_coding.spare (fractions numerators.old denominators.old) ≡ 0 }
    ensures { outcome (listed_as result) (fractions numerators.new denominators.new)
        ≡ breakpoints_encoded (strings_of models.now) entries
        (fractions numerators.old denominators.old) }
{
    let count = select::check_breakpoints(
        models,
        entries,
        numerators.len() / 8,
        denominators.len() / 2,
    )?;
    write_breakpoints(models, count, numerators, denominators);
    Ok(count)
}

// Writes the breakpoints between the entries of a path, not reduced, to the front of two byte strings.
// Stays: the parameters are those of the call in C.
pub fn breakpoints(
    sizes: &[u8],
    losses: &[u8],
    weights: &[u8],
    entries: usize,
    numerators: &mut [u8],
    denominators: &mut [u8],
) -> BreakpointsResult
    ensures { outcome result (fractions numerators.new denominators.new)
        ≡ breakpoints_bytes_of (lists sizes.now losses.now weights.now) entries
        (fractions numerators.old denominators.old) }
{
    let models = ByteColumns {
        sizes,
        losses,
        weights,
    };
    if models.spare() + numerators.len() % 8 + denominators.len() % 2 != 0 {
        return BreakpointsResult::from(Err(Refusal::Layout));
    }
    BreakpointsResult::from(breakpoints_whole(&models, entries, numerators, denominators))
}
