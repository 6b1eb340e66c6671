//! Groups of rows, and which rows one has.

ghost use Rattle.std.specs.Prelude.{◌≡◌, ◌∷◌, [], IfOk, OnOk, filter, map};
ghost use Rattle.tuple_codec.specs.Rows.{key_of};
ghost use Rattle.plain_sql.specs.Answers.{groups, has_key, keys_in};
ghost use Rattle.plain_sql.specs.Lists.{in_order};
ghost use Rattle.plain_sql.specs.Runs.{goes_on, places_cmp, run_with, runs_from, runs_with};

use crate::ranking::compare_cells;
use std::alloc::{AllocError, Global};
use std::cmp::Ordering;
use std::mem;
use tuple_codec::{Row, Sequence, Value, cell_at};

/// Which rows are one.
#[derive(Drop)]
pub enum Grouping {
    /// Each row is its own group.
    Single,
    /// All rows are one group, also where there is none.
    Whole,
    /// Rows are one group where they have the same cells at these places.
    By(Sequence<usize>),
}

/// The cells at these places.
pub fn cells_at(alloc: Global, places: &[usize], row: &[Value]) -> Result<Row, AllocError>
    ensures { IfOk result (λ key. key ≡ key_of places.now row.now) }
{
    let mut key = Sequence::new(alloc);
    for place in places {
        key.push(cell_at(alloc, row, *place)?)?;
    }
    Ok(key)
}

/// The order of two rows by their cells at these places.
fn compare_at(places: &[usize], a: &[Value], b: &[Value]) -> Ordering
    ensures { result ≡ places_cmp places.now a.now b.now }
{
    for place in places {
        let order = compare_cells(*place, a, b);
        if order.is_ne() {
            return order;
        }
    }
    Ordering::Equal
}

/// The rows from the least cells at these places to the greatest; those with the same cells there stay as they stood.
fn sorted(alloc: Global, places: &[usize], mut rows: Vec<Row>) -> Result<Vec<Row>, AllocError>
    ensures { IfOk result (λ found. found.items ≡ in_order (places_cmp places.now) rows.items) }
{
    rows.as_mut_slice().sort_by(alloc, |a, b| compare_at(places, a.as_slice(), b.as_slice()))?;
    Ok(rows)
}

/// Whether a row belongs to these, which have the same cells at these places.
fn goes_on(places: &[usize], run: &[Row], row: &[Value]) -> bool
    ensures { result ≡ goes_on (places_cmp places.now) run.now row.now }
{
    match run {
        [] => true,
        [first, ..] => compare_at(places, first.as_slice(), row).is_eq(),
    }
}

/// Takes a row into the run, or ends the run and begins the next with it.
fn take_row(
    alloc: Global,
    places: &[usize],
    runs: &mut Sequence<Sequence<Row>>,
    run: &mut Sequence<Row>,
    row: Row,
) -> Result<(), AllocError>
    ensures runs { OnOk result (runs.new ≡ runs_with (places_cmp places.now) runs.old run.old row) }
    ensures run { OnOk result (run.new ≡ run_with (places_cmp places.now) run.old row) }
{
    if goes_on(places, run.as_slice(), row.as_slice()) {
        return run.push(row);
    }
    runs.push(mem::replace(run, Sequence::new(alloc)))?;
    run.push(row)
}

fn only(alloc: Global, row: Row) -> Result<Sequence<Row>, AllocError>
    ensures { IfOk result (λ group. group ≡ row ∷ []) }
{
    let mut group = Sequence::new(alloc);
    group.push(row)?;
    Ok(group)
}

fn each_alone(alloc: Global, rows: Vec<Row>) -> Result<Sequence<Sequence<Row>>, AllocError>
    ensures { IfOk result (λ groups. groups ≡ map (λ row. row ∷ []) rows.items) }
{
    let mut groups = Sequence::new(alloc);
    for row in rows {
        groups.push(only(alloc, row)?)?;
    }
    Ok(groups)
}

/// The rows cut into runs: those that stand next to each other with the same cells at these places.
fn runs(
    alloc: Global,
    places: &[usize],
    rows: Vec<Row>,
) -> Result<Sequence<Sequence<Row>>, AllocError>
    ensures { IfOk result (λ runs. runs ≡ runs_from (places_cmp places.now) [] rows.items) }
{
    let mut runs = Sequence::new(alloc);
    let mut run = Sequence::new(alloc);
    for row in rows {
        take_row(alloc, places, &mut runs, &mut run, row)?;
    }
    if !run.as_slice().is_empty() {
        runs.push(run)?;
    }
    Ok(runs)
}

/// The groups of rows that have the same cells at these places.
fn by_places(
    alloc: Global,
    places: &[usize],
    rows: Sequence<Row>,
) -> Result<Sequence<Sequence<Row>>, AllocError>
    ensures { IfOk result (λ found. found ≡ map (λ key. filter (has_key places.now key) rows) (keys_in places.now rows)) }
{
    let sorted = sorted(alloc, places, rows.into_vec())?;
    runs(alloc, places, sorted)
}

/// The groups, in the order of their keys.
pub fn groups(
    alloc: Global,
    grouping: &Grouping,
    rows: Sequence<Row>,
) -> Result<Sequence<Sequence<Row>>, AllocError>
    ensures { IfOk result (λ found. found ≡ groups grouping.now rows) }
{
    match grouping {
        Grouping::Single => each_alone(alloc, rows.into_vec()),
        Grouping::Whole => {
            let mut groups = Sequence::new(alloc);
            groups.push(rows)?;
            Ok(groups)
        }
        Grouping::By(places) => by_places(alloc, places.as_slice(), rows),
    }
}
