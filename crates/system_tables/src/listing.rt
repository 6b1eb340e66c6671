//! The tables of conflicts and of violations that a SELECT names, as its sources.

ghost use Rattle.std.specs.Prelude.{◌≡◌, ◌++◌, ◌∷◌, [], OnOk, Some, map};
ghost use Rattle.std.specs.List.{list_any};
ghost use Rattle.chunk_store.specs.Drafts.{chunks_of};
ghost use Rattle.plain_sessions.specs.Sessions as plain;
ghost use Rattle.plain_sessions.specs.Sessions.{Transaction};
ghost use Rattle.schema_model.specs.PlainTables.{PlainDatabase, PlainTable};
ghost use Rattle.session_state.specs.Standing.{IsInTransaction, SessionStands};
ghost use Rattle.table_root.specs.Standing.{AreThere, IsTableAt};
ghost use Rattle.system_tables.specs.Entries.{HasTableAt, counts_name, counts_shown, list_shown};
ghost use Rattle.system_tables.specs.Known.{as_named, entry_tables, entry_tables_of, named_read};
ghost use Rattle.system_tables.specs.Naming.{is_entry_name, reads_entries};

use crate::changes::tables_of;
use crate::counts::counts_shown;
use crate::entries::Listed;
use crate::lists::{list_name, list_shown};
use crate::sources::{as_named, is_read};
use chunk_store::Draft;
use session_state::Session;
use sql_ast::FromClause;
use sql_select::NamedAnswer;
use std::alloc::{AllocError, Global};
use table_root::TableEntry;
use tuple_codec::{Digester, Sequence};

/// The names of tables of conflicts and of violations begin so, and no stored table's does.
fn is_entry_name(name: &[u8]) -> bool
    ensures { result ≡ is_entry_name name.now }
{
    name.starts_with(b"dolt_conflicts") || name.starts_with(b"dolt_constraint_violations")
}

fn joins_entries(from: &FromClause) -> bool
    ensures { result ≡ list_any (λ join. is_entry_name join.source.table) from.now.joins }
{
    from.joins
        .as_slice()
        .iter()
        .any(|join| is_entry_name(join.source.table.as_slice()))
}

/// Whether the SELECT names a table of conflicts or of violations.
fn reads_entries(from: &FromClause) -> bool
    ensures { result ≡ reads_entries from.now }
{
    is_entry_name(from.first.table.as_slice()) || joins_entries(from)
}

fn counts_name(which: Listed) -> &'static [u8]
    ensures { result.now ≡ counts_name which }
{
    match which {
        Listed::Conflicts => b"dolt_conflicts",
        Listed::Violations => b"dolt_constraint_violations",
    }
}

/// Adds the table of counts, if the SELECT names it.
fn push_counts<D: Digester>(
    alloc: Global,
    draft: &Draft<D>,
    which: Listed,
    tables: &[TableEntry],
    from: &FromClause,
    sources: &mut Sequence<NamedAnswer>,
) -> Result<(), AllocError>
    requires { (database : PlainDatabase) × AreThere D.address (chunks_of draft.now.chunks) database tables.now }
    ensures { (database : PlainDatabase) → AreThere D.address (chunks_of draft.now.chunks) database tables.now
        → OnOk result (sources.new ≡ sources.old ++ named_read from.now (counts_shown which database ∷ [])) }
{
    if is_read(from, counts_name(which)) {
        sources.push(as_named(alloc, counts_shown(alloc, draft, which, tables)?)?)?;
    }
    Ok(())
}

/// Adds such a list of a table, if the SELECT names it.
fn push_list<D: Digester>(
    alloc: Global,
    draft: &Draft<D>,
    which: Listed,
    named: &TableEntry,
    from: &FromClause,
    sources: &mut Sequence<NamedAnswer>,
) -> Result<(), AllocError>
    requires { HasTableAt D.address (chunks_of draft.now.chunks) named.now.table.0 }
    ensures { (table : PlainTable) → IsTableAt D.address (chunks_of draft.now.chunks) named.now.table.0 table
        → OnOk result (sources.new ≡ sources.old ++ named_read from.now (list_shown which (record { name = named.now.name; table = table }) ∷ [])) }
{
    let name = list_name(alloc, which, &named.name)?;
    if is_read(from, name.as_slice()) {
        push_shown(alloc, draft, which, named, sources)
    } else {
        Ok(())
    }
}

fn push_shown<D: Digester>(
    alloc: Global,
    draft: &Draft<D>,
    which: Listed,
    named: &TableEntry,
    sources: &mut Sequence<NamedAnswer>,
) -> Result<(), AllocError>
    requires { HasTableAt D.address (chunks_of draft.now.chunks) named.now.table.0 }
    ensures { (table : PlainTable) → IsTableAt D.address (chunks_of draft.now.chunks) named.now.table.0 table
        → OnOk result (sources.new ≡ sources.old ++ as_named (list_shown which (record { name = named.now.name; table = table })) ∷ []) }
{
    sources.push(as_named(alloc, list_shown(alloc, draft, which, named)?)?)?;
    Ok(())
}

/// Adds those of such lists of these tables that the SELECT names. There are few tables, so the calls don't go deep.
fn push_lists<D: Digester>(
    alloc: Global,
    draft: &Draft<D>,
    which: Listed,
    tables: &[TableEntry],
    from: &FromClause,
    sources: &mut Sequence<NamedAnswer>,
) -> Result<(), AllocError>
    requires { (database : PlainDatabase) × AreThere D.address (chunks_of draft.now.chunks) database tables.now }
    ensures { (database : PlainDatabase) → AreThere D.address (chunks_of draft.now.chunks) database tables.now
        → OnOk result (sources.new ≡ sources.old ++ named_read from.now (map (list_shown which) database)) }
{
    if let [first, rest @ ..] = tables {
        push_list(alloc, draft, which, first, from, sources)?;
        push_lists(alloc, draft, which, rest, from, sources)?;
    }
    Ok(())
}

fn push_all<D: Digester>(
    alloc: Global,
    draft: &Draft<D>,
    tables: &[TableEntry],
    from: &FromClause,
    sources: &mut Sequence<NamedAnswer>,
) -> Result<(), AllocError>
    requires { (database : PlainDatabase) × AreThere D.address (chunks_of draft.now.chunks) database tables.now }
    ensures { (database : PlainDatabase) → AreThere D.address (chunks_of draft.now.chunks) database tables.now
        → OnOk result (sources.new ≡ sources.old ++ named_read from.now (entry_tables_of database)) }
{
    push_counts(alloc, draft, Listed::Conflicts, tables, from, sources)?;
    push_counts(alloc, draft, Listed::Violations, tables, from, sources)?;
    push_lists(alloc, draft, Listed::Conflicts, tables, from, sources)?;
    push_lists(alloc, draft, Listed::Violations, tables, from, sources)
}

/// Adds the tables of conflicts and of violations that the SELECT names. Where it names none, no table is looked at.
pub(crate) fn push_entries<D: Digester>(
    alloc: Global,
    session: &Session<D>,
    from: &FromClause,
    sources: &mut Sequence<NamedAnswer>,
) -> Result<(), AllocError>
    requires { IsInTransaction D.address session.now }
    ensures { (p : plain.Session) (t : Transaction) → SessionStands D.address session.now p → p.transaction ≡ Some t
        → OnOk result (sources.new ≡ sources.old ++ named_read from.now (entry_tables t)) }
{
    if reads_entries(from) {
        let tables = tables_of(alloc, &session.draft, &session.own.working)?;
        push_all(alloc, &session.draft, tables.as_slice(), from, sources)?;
    }
    Ok(())
}
