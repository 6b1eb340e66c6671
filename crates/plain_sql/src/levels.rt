//! What is still to be combined behind a row: the rows of the next source, and the sources behind it.

ghost use Rattle.std.specs.Prelude.{◌≡◌, ◌<◌, ◌≤◌, ◌+◌, ◌++◌, [], IfOk, IfSome, List, MatchOption, length};
ghost use Rattle.plain_sql.specs.Answers.{Meaning};
ghost use Rattle.plain_sql.specs.Levels.{IsServed, Opens, left_of, rows_of, weight, work_of};
ghost use Rattle.plain_sql.specs.Links.{AreServed};
ghost use Rattle.plain_sql.specs.Nesting.{kept_from};

use crate::lookups::{Lookup, tried};
use crate::sources::Read;
use std::alloc::{AllocError, Global};
use tuple_codec::{Row, Sequence, Value, copy_value};

/// The rows of a source that are still to be tried behind a row, and the sources behind it.
#[derive(Drop)]
pub struct Level<'a> {
    pub row: Row,
    pub rows: &'a [Row],
    pub sources: &'a [Read],
    pub lookups: &'a [Option<Lookup>],
}

/// A row of the sources before and, behind it, one of the next source; both are copied.
pub fn joined(alloc: Global, row: &[Value], more: &[Value]) -> Result<Row, AllocError>
    ensures { IfOk result (λ whole. whole ≡ row.now ++ more.now) }
{
    let mut whole = Vec::with_capacity(alloc, row.len().saturating_add(more.len()))?;
    for value in row {
        whole.push(copy_value(alloc, value)?)?;
    }
    for value in more {
        whole.push(copy_value(alloc, value)?)?;
    }
    Ok(Sequence::from_vec(whole))
}

/// All rows of the first source that are tried behind this one.
pub fn level_of<'a>(sources: &'a [Read], lookups: &'a [Option<Lookup>], row: Row) -> Level<'a>
    requires some { 1 ≤ length sources.now }
    requires served { (tests : List Meaning) × AreServed tests sources.now lookups.now }
    ensures left { (tests : List Meaning) → AreServed tests sources.now lookups.now → left_of tests result ≡ kept_from tests (rows_of sources.now) row }
    ensures served { (tests : List Meaning) → AreServed tests sources.now lookups.now → IsServed tests result }
    ensures work { work_of result < weight (rows_of sources.now) }
{
    match sources {
        [] => unreachable!(),
        [first, rest @ ..] => match lookups {
            [] => unreachable!(),
            [lookup, others @ ..] => {
                let rows = tried(first.rows.as_slice(), lookup, row.as_slice());
                Level {
                    row,
                    rows,
                    sources: rest,
                    lookups: others,
                }
            }
        },
    }
}

/// A level of the sources behind for the first row that is left, and what is left behind that row.
pub fn opened<'a>(
    alloc: Global,
    level: Level<'a>,
) -> Result<Option<(Level<'a>, Level<'a>)>, AllocError>
    requires some { 1 ≤ length level.sources.now }
    requires served { (tests : List Meaning) × IsServed tests level }
    ensures opens { IfOk result (λ found. MatchOption found (level.entry.rows.now ≡ []) (λ both. (tests : List Meaning) → IsServed tests level.entry → Opens tests level.entry both.0 both.1)) }
    ensures work { IfOk result (λ found. IfSome found (λ both. work_of both.0 + work_of both.1 < work_of level.entry)) }
{
    match level.rows {
        [] => Ok(None),
        [first, rest @ ..] => {
            let whole = joined(alloc, level.row.as_slice(), first.as_slice())?;
            let next = level_of(level.sources, level.lookups, whole);
            let rest = Level {
                row: level.row,
                rows: rest,
                sources: level.sources,
                lookups: level.lookups,
            };
            Ok(Some((next, rest)))
        }
    }
}
