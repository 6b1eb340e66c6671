//! DELETE of a table's conflicts or of its recorded violations.

ghost use Rattle.std.specs.Prelude.{◌≡◌, IfErr, IfOk, map};
ghost use Rattle.std.specs.Option.{option_map};
ghost use Rattle.chunk_store.specs.Clashes.{IsReason};
ghost use Rattle.chunk_store.specs.Drafts.{Grows, chunks_of};
ghost use Rattle.chunk_store.specs.Kinds.{is_data};
ghost use Rattle.conflict_tables.specs.Conflicts.{IsSomeTable};
ghost use Rattle.table_root.specs.Kept.{HasKeptAt, IsKeptAt};
ghost use Rattle.plain_sessions.specs.SystemTables as plain;
ghost use Rattle.plain_sql.specs.Gives.{Gives, GivesBy};
ghost use Rattle.plain_sql.specs.Plans.{meaning, scope_column};
ghost use Rattle.plain_writes.specs.Writes.{replaced};
ghost use Rattle.schema_model.specs.PlainTables.{PlainDatabase, PlainTable};
ghost use Rattle.sql_rules.specs.Writes.{is_below};
ghost use Rattle.sql_write.specs.Finding.{IsFound};
ghost use Rattle.sql_write.specs.Writing.{Writes};
ghost use Rattle.system_tables.specs.Entries as shown;
ghost use Rattle.table_root.specs.Standing.{IsTableOf};
ghost use Rattle.session_txn.specs.Deleting.{chosen_key, chosen_keys, effect_on, entries_effect, keys_chosen, list_named, without_entries};

use crate::dropping::drop_entries;
use chunk_store::{Draft, PutFault, law_of_drafts, law_of_growth};
use expr_eval::{BoundExpr, ScopeColumn};
use plain_sql::{NamedType, Refused, append, passes};
use plain_writes::tests_of;
use schema_model::Schema;
use sql_ast::Delete;
use sql_write::{Found, SqlFault, Written, find, put_table};
use std::alloc::{AllocError, Global};
use system_tables::{ListEntry, Listed, columns_of, entries_of};
use table_root::{StoredTable, law_of_tables};
use tuple_codec::{Address, Blob, Digester, Sequence, Text};

fn is_below(name: &[u8], front: &[u8]) -> bool
    ensures { result ≡ is_below front.now name.now }
{
    name.starts_with(front) && name.len() > front.len()
}

/// The list that a DELETE's table is, and whose it is.
pub(crate) fn list_named(name: &[u8]) -> Option<(Listed, &[u8])>
    ensures { option_map (λ list. (list.0, list.1.now)) result ≡ list_named name.now }
{
    if is_below(name, b"dolt_conflicts_") {
        return Some((Listed::Conflicts, &name[15..]));
    }
    if is_below(name, b"dolt_constraint_violations_") {
        return Some((Listed::Violations, &name[27..]));
    }
    None
}

/// The columns as the DELETE names them.
fn scope_of(
    alloc: Global,
    source: &Text,
    columns: &[NamedType],
) -> Result<Sequence<ScopeColumn>, AllocError>
    ensures { IfOk result (λ scope. scope ≡ map (scope_column source.now) columns.now) }
{
    let mut scope = Sequence::new(alloc);
    for column in columns {
        scope.push(ScopeColumn {
            source: Text::from_slice(alloc, source.as_slice())?,
            name: Text::from_slice(alloc, column.name.as_slice())?,
            kind: column.kind,
        })?;
    }
    Ok(scope)
}

/// WHERE of a DELETE of entries.
fn tests_on(
    alloc: Global,
    which: Listed,
    schema: &Schema,
    delete: &Delete,
) -> Result<Sequence<BoundExpr>, Refused>
    ensures { GivesBy (map meaning) result (plain.tests_on (shown.columns_of which schema.now) delete.now) }
{
    let columns = columns_of(alloc, which, schema)?;
    let scope = scope_of(alloc, &delete.table, columns.as_slice())?;
    tests_of(alloc, scope.as_slice(), &delete.filter)
}

/// Adds the key of an entry that the tests choose.
fn chosen_key(
    alloc: Global,
    tests: &[BoundExpr],
    entry: &ListEntry,
) -> Result<Sequence<Blob>, Refused>
    ensures { Gives result (chosen_key (map meaning tests.now) entry.now) }
{
    let mut keys = Sequence::new(alloc);
    if passes(alloc, tests, &entry.row)? {
        keys.push(Blob::from_vec(Vec::from_slice(alloc, entry.key.as_slice())?))?;
    }
    Ok(keys)
}

/// The keys of the entries that the tests choose, up to the first refusal.
fn chosen_keys(
    alloc: Global,
    tests: &[BoundExpr],
    entries: &[ListEntry],
) -> Result<Sequence<Blob>, Refused>
    ensures { Gives result (chosen_keys (map meaning tests.now) entries.now) }
{
    let mut keys = Sequence::new(alloc);
    for entry in entries {
        append(&mut keys, chosen_key(alloc, tests, entry)?)?;
    }
    Ok(keys)
}

/// The keys of the entries of a table's list that a DELETE takes.
fn keys_chosen<D: Digester>(
    alloc: Global,
    draft: &Draft<D>,
    which: Listed,
    delete: &Delete,
    table: &StoredTable,
) -> Result<Sequence<Blob>, Refused>
    requires { IsSomeTable D.address (chunks_of draft.now.chunks) table.now }
    ensures { (contents : PlainTable) → IsTableOf D.address (chunks_of draft.now.chunks) table.now contents → Gives result (keys_chosen which delete.now contents) }
{
    let tests = tests_on(alloc, which, &table.schema, delete)?;
    let entries = entries_of(alloc, draft, which, table)?;
    chosen_keys(alloc, tests.as_slice(), entries.as_slice())
}

/// The database with the table that was found, without the entries of these keys: its address.
fn put_emptied<D: Digester>(
    alloc: Global,
    draft: &mut Draft<D>,
    database: &Address,
    found: Found,
    which: Listed,
    name: &[u8],
    keys: &[Blob],
) -> Result<Address, PutFault>
    requires { (before : PlainDatabase) × (contents : PlainTable) × IsFound D.address (chunks_of draft.old.chunks) database.now.0 name.now before contents found }
    ensures stands { (before : PlainDatabase) (contents : PlainTable) → IsFound D.address (chunks_of draft.old.chunks) database.now.0 name.now before contents found
        → IfOk result (λ root. IsKeptAt D.address (chunks_of draft.new.chunks) root.0 (replaced name.now (without_entries which keys.now contents) before)) }
    ensures grows { Grows is_data draft.old draft.new }
    ensures cause { IfErr result (IsReason D.address (chunks_of draft.new.chunks)) }
{
    law_of_drafts();
    law_of_growth();
    law_of_tables();
    let made = drop_entries(alloc, draft, which, &found.table, keys)?;
    put_table(alloc, draft, found.tables, name, &made)
}

fn delete_found<D: Digester>(
    alloc: Global,
    draft: &mut Draft<D>,
    database: &Address,
    found: Found,
    which: Listed,
    name: &[u8],
    delete: &Delete,
) -> Result<Written, SqlFault>
    requires { (before : PlainDatabase) × (contents : PlainTable) × IsFound D.address (chunks_of draft.old.chunks) database.now.0 name.now before contents found }
    ensures done { (before : PlainDatabase) (contents : PlainTable) → IsFound D.address (chunks_of draft.old.chunks) database.now.0 name.now before contents found
        → Writes D.address (chunks_of draft.new.chunks) result (effect_on which before delete.now name.now contents) }
    ensures grows { Grows is_data draft.old draft.new }
{
    let keys = keys_chosen(alloc, draft, which, delete, &found.table)?;
    let root = put_emptied(alloc, draft, database, found, which, name, keys.as_slice())?;
    Ok(Written {
        root,
        rows: keys.as_slice().len() as u64,
    })
}

/// Deletes entries of such a list of the table of this name: the database after it, and how many went.
pub(crate) fn delete_entries<D: Digester>(
    alloc: Global,
    draft: &mut Draft<D>,
    database: &Address,
    which: Listed,
    name: &[u8],
    delete: &Delete,
) -> Result<Written, SqlFault>
    requires { HasKeptAt D.address (chunks_of draft.old.chunks) database.now.0 }
    ensures done { (contents : PlainDatabase) → IsKeptAt D.address (chunks_of draft.old.chunks) database.now.0 contents
        → Writes D.address (chunks_of draft.new.chunks) result (entries_effect which contents delete.now name.now) }
    ensures grows { Grows is_data draft.old draft.new }
{
    let found = find(alloc, draft, database, name)?;
    delete_found(alloc, draft, database, found, which, name, delete)
}
