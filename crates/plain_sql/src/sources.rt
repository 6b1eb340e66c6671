//! The sources of a SELECT, with their columns as it names them.

ghost use Rattle.std.specs.Prelude.{◌≡◌, IfOk, OnOk, OnErr, ◌++◌, map};
ghost use Rattle.std.specs.List.{flat_map};
ghost use Rattle.plain_sql.specs.Gives.{Gives};
ghost use Rattle.plain_sql.specs.Lists.{each};
ghost use Rattle.plain_sql.specs.Plans.{read_as, scope_column, scope_of, source_read, sources_of};

use crate::faults::Refused;
use expr_eval::ScopeColumn;
use sql_ast::{FromClause, TableSource};
use sql_text::source_name;
use std::alloc::{AllocError, Global};
use tuple_codec::{Row, Sequence, SqlType, Text, copy_row};

/// A column of a table: its name and its type alone.
#[derive(Drop)]
pub struct NamedType {
    pub name: Text,
    pub kind: SqlType,
}

/// A table, or what a system table shows.
#[derive(Drop)]
pub struct Known {
    pub name: Text,
    pub columns: Sequence<NamedType>,
    pub rows: Sequence<Row>,
}

/// A source of a SELECT: its columns as they are named there, and its rows.
#[derive(Drop)]
pub struct Read {
    pub columns: Sequence<ScopeColumn>,
    pub rows: Sequence<Row>,
}

fn scope_columns(
    alloc: Global,
    source: &[u8],
    columns: &[NamedType],
) -> Result<Sequence<ScopeColumn>, AllocError>
    ensures { IfOk result (λ found. found ≡ map (scope_column source.now) columns.now) }
{
    let mut found = Sequence::new(alloc);
    for column in columns {
        found.push(ScopeColumn {
            source: Text::from_slice(alloc, source)?,
            name: Text::from_slice(alloc, column.name.as_slice())?,
            kind: column.kind,
        })?;
    }
    Ok(found)
}

/// Copies of the rows, for a source that is to own them or a lookup that is to sort them.
pub fn copied_rows(alloc: Global, rows: &[Row]) -> Result<Sequence<Row>, AllocError>
    ensures { IfOk result (λ copies. copies ≡ rows.now) }
{
    let mut copies = Sequence::new(alloc);
    for row in rows {
        copies.push(copy_row(alloc, row.as_slice())?)?;
    }
    Ok(copies)
}

fn read_as(alloc: Global, name: &[u8], known: &Known) -> Result<Read, AllocError>
    ensures { IfOk result (λ read. read ≡ read_as name.now known.now) }
{
    Ok(Read {
        columns: scope_columns(alloc, name, known.columns.as_slice())?,
        rows: copied_rows(alloc, known.rows.as_slice())?,
    })
}

#[tactic(auto, unfolding(crate::specs::Plans::source_read))]
fn source_read(alloc: Global, known: &[Known], source: &TableSource) -> Result<Read, Refused>
    ensures { Gives result (source_read known.now source.now) }
{
    for one in known {
        if one.name.is(source.table.as_slice()) {
            return Ok(read_as(alloc, source_name(source).as_slice(), one)?);
        }
    }
    Err(Refused::By(1146))
}

/// The sources in the order of FROM, or 1146 where one isn't there.
pub fn sources_read(
    alloc: Global,
    known: &[Known],
    from: &FromClause,
) -> Result<Sequence<Read>, Refused>
    ensures { Gives result (each (source_read known.now) (sources_of from.now)) }
{
    let mut reads = Sequence::new(alloc);
    reads.push(source_read(alloc, known, &from.first)?)?;
    let joins = from.joins.as_slice();
    for join in joins {
        reads.push(source_read(alloc, known, &join.source)?)?;
    }
    Ok(reads)
}

fn copied_column(alloc: Global, column: &ScopeColumn) -> Result<ScopeColumn, AllocError>
    ensures { IfOk result (λ copy. copy ≡ column.now) }
{
    Ok(ScopeColumn {
        source: Text::from_slice(alloc, column.source.as_slice())?,
        name: Text::from_slice(alloc, column.name.as_slice())?,
        kind: column.kind,
    })
}

fn push_columns(
    alloc: Global,
    scope: &mut Sequence<ScopeColumn>,
    columns: &[ScopeColumn],
) -> Result<(), AllocError>
    ensures { OnOk result (scope.new ≡ scope.old ++ columns.now) }
{
    for column in columns {
        scope.push(copied_column(alloc, column)?)?;
    }
    Ok(())
}

/// The columns of all sources.
pub fn scope_of(alloc: Global, sources: &[Read]) -> Result<Sequence<ScopeColumn>, AllocError>
    ensures { IfOk result (λ scope. scope ≡ scope_of sources.now) }
{
    let mut scope = Sequence::new(alloc);
    for source in sources {
        push_columns(alloc, &mut scope, source.columns.as_slice())?;
    }
    Ok(scope)
}
