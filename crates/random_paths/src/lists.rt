// Random lists: builds by both methods, the same models appended one by one, breakpoints and selections, against what an exhaustive
// search finds. What a test cannot do, for lack of places or of an answer of the search, is none, and counts as a mismatch.

use crate::history::History;
use crate::models;
use crate::models::{KINDS, Kind};
use path::storage::Columns;
use std::io;
use std::num::Saturating;
use std::ops::AddAssign;
use testing::answer::faults;
use testing::lists::{Lists, MARK, Model, Rooms};
use testing::random::{next, start};
use testing::search::cheapest;

// What was compared.
#[derive(Clone, Copy, Default)]
struct Totals {
    faults: Saturating<u64>,
    models: Saturating<u64>,
    passed: Saturating<u64>,
    entries: Saturating<u64>,
    tests: Saturating<u64>,
}

impl Totals {
    // A test that could not be made.
    fn fault() -> Self {
        Totals {
            faults: Saturating(1),
            ..Totals::default()
        }
    }
}

impl AddAssign for Totals {
    fn add_assign(&mut self, more: Totals) {
        self.faults += more.faults;
        self.models += more.models;
        self.passed += more.passed;
        self.entries += more.entries;
        self.tests += more.tests;
    }
}

// Whether models appended one by one leave what is right.
fn appends_well(models: &[Model]) -> bool {
    let mut path = Lists::<12>::marks();
    let mut made = History::default();
    for model in models {
        let appended = path::append(
            &mut path.sizes,
            &mut path.losses,
            &mut path.weights,
            made.entries,
            model.size,
            model.loss,
            model.weight,
        );
        made = made.after(appended.into(), 1);
    }
    made.is_right(models, &path)
}

// Whether a build by the older method leaves what is right, and reports no tests.
fn builds_as_before(models: &[Model], given: Columns<'_>) -> bool {
    let mut path = Lists::<12>::marks();
    let built = quadratic::build_quadratic(
        given.sizes,
        given.losses,
        given.weights,
        &mut path.sizes,
        &mut path.losses,
        &mut path.weights,
    );
    let made = History::default().after(built.into(), models.len());
    made.has_path(models, &path) && made.tests == 0
}

// The distances of some values, each from the next one, and then marks.
fn gaps(values: &[u64]) -> [u64; 12] {
    let mut made = [MARK; 12];
    for (gap, [here, after]) in made.iter_mut().zip(values.array_windows::<2>()) {
        *gap = here.abs_diff(*after);
    }
    made
}

// Whether the breakpoints of a path are right.
fn lists_well(path: &Lists<12>, entries: usize) -> Option<bool> {
    let mut numerators = [MARK; 12];
    let mut denominators = [MARK; 12];
    let listed = select::breakpoints(
        &path.sizes,
        &path.losses,
        &path.weights,
        entries,
        &mut numerators,
        &mut denominators,
    );
    let first = path.first(Rooms::all(entries))?;
    Some(
        listed.refusal == 0
            && entries.checked_sub(1) == Some(listed.count)
            && numerators == gaps(first.losses)
            && denominators == gaps(first.weights),
    )
}

// Whether the model that a path gives at the penalty p / q is the smallest of the cheapest of all models.
// Stays: a number beside the lists, as the calls under test take it.
fn selects_well(models: &[Model], path: &Lists<12>, entries: usize, p: u64, q: u64) -> bool {
    let found = select::select(&path.sizes, &path.losses, &path.weights, entries, p, q);
    let model = Some(Model::new(found.size, found.loss, found.weight));
    found.refusal == 0 && path.model(found.index) == model && cheapest(models, p, q) == model
}

// The mismatches at the penalty at which two models cost the same, and at its two neighbours; none if the first is not the
// lighter one.
// Stays: a number beside the lists, as the calls under test take it.
fn pair_faults(
    models: &[Model],
    path: &Lists<12>,
    entries: usize,
    lighter: Model,
    heavier: Model,
) -> u64 {
    if heavier.weight <= lighter.weight {
        return 0;
    }
    let p = lighter.loss.saturating_sub(heavier.loss);
    let q = heavier.weight - lighter.weight;
    faults(&[
        selects_well(models, path, entries, p.saturating_sub(1), q),
        selects_well(models, path, entries, p, q),
        selects_well(models, path, entries, p.saturating_add(1), q),
    ])
}

// All comparisons for a list.
fn check_list(models: &[Model]) -> Option<Totals> {
    let lists = Lists::<12>::from(models);
    let given = lists.first(Rooms::all(models.len()))?;
    let mut path = Lists::marks();
    let built = build::build(
        given.sizes,
        given.losses,
        given.weights,
        &mut path.sizes,
        &mut path.losses,
        &mut path.weights,
    );
    let made = History::default().after(built.into(), models.len());
    let mut wrong = Saturating(faults(&[
        made.is_right(models, &path),
        builds_as_before(models, given),
        lists_well(&path, made.entries)?,
        appends_well(models),
    ]));
    for lighter in models {
        for heavier in models {
            wrong += pair_faults(models, &path, made.entries, *lighter, *heavier);
        }
    }
    Some(Totals {
        faults: wrong,
        models: Saturating(models.len() as u64),
        passed: Saturating(models::passed_over(models) as u64),
        entries: Saturating(made.entries as u64),
        tests: Saturating(made.tests),
    })
}

// The list i: 1 to 12 models of a kind, with weights of another. The sizes and the weights of those passed over are raised.
fn check_random(i: u64) -> Option<Totals> {
    let kind = Kind::nth(i);
    let other = Kind::nth(i / KINDS);
    let x = start(1, i);
    let mut drawn = models::draw(kind, other, x, x % 3).models();
    let models = &mut drawn[(x % 12) as usize + 12..];
    models::lift_all(kind, other, x, models);
    check_list(models)
}

pub fn run(rt: &impl Print) -> io::Result<()> {
    let mut totals = Totals::default();
    for i in 0..20000 {
        totals += check_random(i).unwrap_or(Totals::fault());
    }
    println!(rt;
        "20000 lists: mismatches {}, models {}, passed over {}, entries {}, tests {}",
        totals.faults.0, totals.models.0, totals.passed.0, totals.entries.0, totals.tests.0,
    )
}
