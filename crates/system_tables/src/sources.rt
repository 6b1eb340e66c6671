//! The system tables that a SELECT names, as its sources.

ghost use Rattle.std.specs.Prelude.{◌≡◌, ◌∷◌, [], ◌++◌, IfOk, OnOk, Some, bytes_eq};
ghost use Rattle.std.specs.List.{list_any};
ghost use Rattle.plain_sessions.specs.Sessions as plain;
ghost use Rattle.plain_sessions.specs.Sessions.{Transaction};
ghost use Rattle.plain_sessions.specs.SystemTables as shown;
ghost use Rattle.session_state.specs.Standing.{IsInTransaction, SessionStands};
ghost use Rattle.sql_select.specs.Gives.{Answers};
ghost use Rattle.sql_select.specs.Sources.{is_read};
ghost use Rattle.system_tables.specs.Known.{as_named, first_answer, kinds_of, named_read, names_of, system_answer, system_tables};
ghost use Rattle.system_tables.specs.Naming.{source_of};

use crate::listing::push_entries;
use crate::tables::{shown_ancestors, shown_branches, shown_log, shown_status};
use plain_sql::{Known, NamedType};
use session_state::Session;
use sql_ast::{FromClause, Join, TableSource};
use sql_select::{AskFault, NamedAnswer};
use std::alloc::{AllocError, Global};
use tuple_codec::{Answer, Digester, Sequence, SqlType, Text};

fn is_joined(joins: &[Join], name: &[u8]) -> bool
    ensures { result ≡ list_any (λ join. bytes_eq name.now join.source.table) joins.now }
{
    joins
        .iter()
        .any(|join| name == join.source.table.as_slice())
}

/// Whether the SELECT names it among its sources.
pub(crate) fn is_read(from: &FromClause, name: &[u8]) -> bool
    ensures { result ≡ is_read from.now name.now }
{
    name == from.first.table.as_slice() || is_joined(from.joins.as_slice(), name)
}

fn names_of(alloc: Global, columns: &[NamedType]) -> Result<Sequence<Text>, AllocError>
    ensures { IfOk result (λ names. names ≡ names_of columns.now) }
{
    let mut names = Sequence::new(alloc);
    for column in columns {
        names.push(Text::from_slice(alloc, column.name.as_slice())?)?;
    }
    Ok(names)
}

fn kinds_of(alloc: Global, columns: &[NamedType]) -> Result<Sequence<SqlType>, AllocError>
    ensures { IfOk result (λ kinds. kinds ≡ kinds_of columns.now) }
{
    let mut kinds = Sequence::new(alloc);
    for column in columns {
        kinds.push(column.kind)?;
    }
    Ok(kinds)
}

/// A table as an answer, under its name.
pub(crate) fn as_named(alloc: Global, known: Known) -> Result<NamedAnswer, AllocError>
    ensures { IfOk result (λ named. named ≡ as_named known) }
{
    let Known {
        name,
        columns,
        rows,
    } = known;
    Ok(NamedAnswer {
        name,
        answer: Answer {
            names: names_of(alloc, columns.as_slice())?,
            kinds: kinds_of(alloc, columns.as_slice())?,
            rows,
        },
    })
}

fn push_log<D: Digester>(
    alloc: Global,
    session: &Session<D>,
    from: &FromClause,
    sources: &mut Sequence<NamedAnswer>,
) -> Result<(), AllocError>
    requires { IsInTransaction D.address session.now }
    ensures { (p : plain.Session) (t : Transaction) → SessionStands D.address session.now p → p.transaction ≡ Some t
        → OnOk result (sources.new ≡ sources.old ++ named_read from.now (shown.log t ∷ [])) }
{
    if is_read(from, b"dolt_log") {
        sources.push(as_named(alloc, shown_log(alloc, session)?)?)?;
    }
    Ok(())
}

fn push_branches<D: Digester>(
    alloc: Global,
    session: &Session<D>,
    from: &FromClause,
    sources: &mut Sequence<NamedAnswer>,
) -> Result<(), AllocError>
    requires { IsInTransaction D.address session.now }
    ensures { (p : plain.Session) (t : Transaction) → SessionStands D.address session.now p → p.transaction ≡ Some t
        → OnOk result (sources.new ≡ sources.old ++ named_read from.now (shown.branches t ∷ [])) }
{
    if is_read(from, b"dolt_branches") {
        sources.push(as_named(alloc, shown_branches(alloc, session)?)?)?;
    }
    Ok(())
}

fn push_status<D: Digester>(
    alloc: Global,
    session: &Session<D>,
    from: &FromClause,
    sources: &mut Sequence<NamedAnswer>,
) -> Result<(), AllocError>
    requires { IsInTransaction D.address session.now }
    ensures { (p : plain.Session) (t : Transaction) → SessionStands D.address session.now p → p.transaction ≡ Some t
        → OnOk result (sources.new ≡ sources.old ++ named_read from.now (shown.status t ∷ [])) }
{
    if is_read(from, b"dolt_status") {
        sources.push(as_named(alloc, shown_status(alloc, session)?)?)?;
    }
    Ok(())
}

fn push_ancestors<D: Digester>(
    alloc: Global,
    session: &Session<D>,
    from: &FromClause,
    sources: &mut Sequence<NamedAnswer>,
) -> Result<(), AllocError>
    requires { IsInTransaction D.address session.now }
    ensures { (p : plain.Session) (t : Transaction) → SessionStands D.address session.now p → p.transaction ≡ Some t
        → OnOk result (sources.new ≡ sources.old ++ named_read from.now (shown.commit_ancestors t ∷ [])) }
{
    if is_read(from, b"dolt_commit_ancestors") {
        sources.push(as_named(alloc, shown_ancestors(alloc, session)?)?)?;
    }
    Ok(())
}

/// Those of the system tables that the SELECT names, each under its name. One that isn't named isn't read, and a table that the
/// database doesn't have has no conflicts or violations to be named.
pub fn system_sources<D: Digester>(
    alloc: Global,
    session: &Session<D>,
    from: &FromClause,
) -> Result<Sequence<NamedAnswer>, AllocError>
    requires { IsInTransaction D.address session.now }
    ensures { (p : plain.Session) (t : Transaction) → SessionStands D.address session.now p → p.transaction ≡ Some t
        → IfOk result (λ sources. sources ≡ named_read from.now (system_tables t)) }
{
    let mut sources = Sequence::new(alloc);
    push_log(alloc, session, from, &mut sources)?;
    push_branches(alloc, session, from, &mut sources)?;
    push_status(alloc, session, from, &mut sources)?;
    push_ancestors(alloc, session, from, &mut sources)?;
    push_entries(alloc, session, from, &mut sources)?;
    Ok(sources)
}

/// The FROM of a SELECT that names this table alone.
fn source_of(alloc: Global, name: &[u8]) -> Result<FromClause, AllocError>
    ensures { IfOk result (λ from. from ≡ source_of name.now) }
{
    Ok(FromClause {
        first: TableSource {
            table: Text::from_slice(alloc, name)?,
            alias: None,
        },
        joins: Sequence::new(alloc),
    })
}

fn first_answer(sources: Sequence<NamedAnswer>) -> Result<Answer, AskFault>
    ensures { Answers result (first_answer sources) }
{
    let mut sources = sources.into_vec();
    if sources.is_empty() {
        return Err(AskFault::Refused(1146));
    }
    Ok(sources.swap_remove(0).answer)
}

/// The system table of this name, for those that want its rows without a SELECT. It refuses with 1146 where the database of
/// the transaction has no such table.
pub fn system_rows<D: Digester>(
    alloc: Global,
    session: &Session<D>,
    name: &[u8],
) -> Result<Answer, AskFault>
    requires { IsInTransaction D.address session.now }
    ensures { (p : plain.Session) (t : Transaction) → SessionStands D.address session.now p → p.transaction ≡ Some t
        → Answers result (system_answer t name.now) }
{
    let from = source_of(alloc, name)?;
    first_answer(system_sources(alloc, session, &from)?)
}
