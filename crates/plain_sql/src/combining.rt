//! Combinations of the sources' rows.

ghost use Rattle.std.specs.Prelude.{◌≡◌, ◌++◌, length, map};
ghost use Rattle.plain_sql.specs.Answers.{combinations, kept, kept_row};
ghost use Rattle.plain_sql.specs.Gives.{Adds, Gives};
ghost use Rattle.plain_sql.specs.Links.{AreServed};
ghost use Rattle.plain_sql.specs.Lists.{all_of};
ghost use Rattle.plain_sql.specs.Nesting.{kept_from};
ghost use Rattle.plain_sql.specs.Plans.{meaning};

use crate::asking::passes;
use crate::faults::Refused;
use crate::levels::{joined, level_of, opened};
use crate::lookups::{Lookup, lookups_of};
use crate::sources::Read;
use expr_eval::BoundExpr;
use std::alloc::Global;
use tuple_codec::{Row, Sequence, Value};

/// Puts a row behind those that are kept, where it passes all tests.
fn keep(
    alloc: Global,
    tests: &[BoundExpr],
    row: Row,
    kept: &mut Sequence<Row>,
) -> Result<(), Refused>
    ensures { Adds result kept.old kept.new (kept_row (map meaning tests.now) row) }
{
    if passes(alloc, tests, &row)? {
        kept.push(row)?;
    }
    Ok(())
}

/// The rows that pass all tests, none of them copied.
fn passing(alloc: Global, tests: &[BoundExpr], rows: Vec<Row>) -> Result<Sequence<Row>, Refused>
    ensures { Gives result (kept (map meaning tests.now) rows.items) }
{
    let mut kept = Sequence::new(alloc);
    for row in rows {
        keep(alloc, tests, row, &mut kept)?;
    }
    Ok(kept)
}

/// Puts behind those that are kept each of these rows joined behind a row, where that passes all tests.
fn keep_joined(
    alloc: Global,
    tests: &[BoundExpr],
    row: &[Value],
    rows: &[Row],
    kept: &mut Sequence<Row>,
) -> Result<(), Refused>
    ensures { Adds result kept.old kept.new (all_of (λ more. kept_row (map meaning tests.now) (row.now ++ more)) rows.now) }
{
    for more in rows {
        let whole = joined(alloc, row, more.as_slice())?;
        keep(alloc, tests, whole, kept)?;
    }
    Ok(())
}

/// Puts behind those that are kept the rows that pass all tests, of those that begin with these cells; the first source is outermost.
/// What is left to be tried of each source stands on a stack of its own, so that many sources take no more of the thread's.
fn kept_from(
    alloc: Global,
    tests: &[BoundExpr],
    sources: &[Read],
    lookups: &[Option<Lookup>],
    row: Row,
    kept: &mut Sequence<Row>,
) -> Result<(), Refused>
    requires { AreServed (map meaning tests.now) sources.now lookups.now }
    ensures { Adds result kept.old kept.new (kept_from (map meaning tests.now) (map (λ source. source.rows) sources.now) row) }
{
    if sources.is_empty() {
        return keep(alloc, tests, row, kept);
    }
    let mut levels = Vec::new(alloc);
    levels.push(level_of(sources, lookups, row))?;
    'levels: while let Some(level) = levels.pop() {
        if level.sources.is_empty() {
            keep_joined(alloc, tests, level.row.as_slice(), level.rows, kept)?;
        } else if let Some(both) = opened(alloc, level)? {
            levels.push(both.1)?;
            levels.push(both.0)?;
        }
    }
    Ok(())
}

/// All combinations of the sources' rows that pass all tests. Where a test compares a column of a source with one before, only rows with
/// equal cells are joined.
#[tactic(auto, using(crate::proofs::NestedLemmas::kept_is))]
pub fn kept(alloc: Global, tests: &[BoundExpr], sources: &[Read]) -> Result<Sequence<Row>, Refused>
    ensures { Gives result (kept (map meaning tests.now) (combinations (map (λ source. source.rows) sources.now))) }
{
    let lookups = lookups_of(alloc, tests, sources)?;
    let mut kept = Sequence::new(alloc);
    kept_from(
        alloc,
        tests,
        sources,
        lookups.as_slice(),
        Sequence::new(alloc),
        &mut kept,
    )?;
    Ok(kept)
}

fn kept_of_one(
    alloc: Global,
    tests: &[BoundExpr],
    sources: Vec<Read>,
) -> Result<Sequence<Row>, Refused>
    requires { length sources.items ≡ 1 }
    ensures { Gives result (kept (map meaning tests.now) (combinations (map (λ source. source.rows) sources.items))) }
{
    let mut sources = sources;
    match sources.pop() {
        Some(source) => passing(alloc, tests, source.rows.into_vec()),
        None => Ok(Sequence::new(alloc)),
    }
}

/// The same, where the sources are given up: the rows of one alone are moved.
pub fn taken(
    alloc: Global,
    tests: &[BoundExpr],
    sources: Sequence<Read>,
) -> Result<Sequence<Row>, Refused>
    ensures { Gives result (kept (map meaning tests.now) (combinations (map (λ source. source.rows) sources))) }
{
    if sources.as_slice().len() == 1 {
        kept_of_one(alloc, tests, sources.into_vec())
    } else {
        kept(alloc, tests, sources.as_slice())
    }
}
