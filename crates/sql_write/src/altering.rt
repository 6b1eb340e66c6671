//! ALTER TABLE over trees.

ghost use Rattle.std.specs.Prelude.{◌≡◌, ◌==◌, IfErr, IfOk, List, length, not, true};
ghost use Rattle.sql_ast.specs.declared.statements.Write.TheVariants as write;
ghost use Rattle.schema_model.specs.PlainTables.{PlainDatabase, PlainTable};
ghost use Rattle.tuple_codec.specs.Nodes.{Item};
ghost use Rattle.chunk_store.specs.Clashes.{IsReason};
ghost use Rattle.chunk_store.specs.Drafts.{Grows, chunks_of};
ghost use Rattle.chunk_store.specs.Kinds.{is_data};
ghost use Rattle.chunk_store.specs.Standing.{IsTree};
ghost use Rattle.table_root.specs.Standing.{IsReadAt, IsTableOf};
ghost use Rattle.plain_sql.specs.Gives.{GivesBy};
ghost use Rattle.plain_writes.specs.Seen.{table_seen};
ghost use Rattle.plain_writes.specs.Writes.{replaced};
ghost use Rattle.plain_schemas.specs.Altered.{alter_effect, has_type, is_open, table_after};
ghost use Rattle.plain_writes.specs.CheckTexts.{checks};
ghost use Rattle.table_root.specs.Kept.{HasKeptAt, IsKeptAt};
ghost use Rattle.index_keep.specs.Keeping.{table_of_rows};
ghost use Rattle.sql_laws.specs.Fit.{IsFit};
ghost use Rattle.sql_write.specs.Altering.{CanRebuild};
ghost use Rattle.sql_write.specs.Making.{Makes};
ghost use Rattle.sql_write.specs.Skeletons.{table_altered};

use crate::building::new_table;
use crate::faults::SqlFault;
use crate::finding::find;
use crate::laws::laws_of_growth;
use crate::schemas::schemas_suffice;
use crate::tables::put_table;
use crate::writing::Written;
use chunk_store::{Draft, PutFault};
use keep_laws::schemas_keep;
use plain_schemas::{ColumnChange, change_of, table_after};
use plain_sql::Refused;
use plain_writes::copy_schema;
use prolly_tree::count;
use schema_model::Schema;
use sql_ast::Alter;
use std::alloc::Global;
use table_root::{StoredTable, TableEntry, read_rows};
use tuple_codec::{Address, Digester, Row, Sequence};
use violation_lists::{CanonicalChecks, read_schemas};

/// Whether a tree has rows.
fn has_rows<D: Digester>(draft: &Draft<D>, root: &Address) -> bool
    requires { (rows : List Item) × IsTree D.address (chunks_of draft.now.chunks) root.now.0 rows }
    ensures { (rows : List Item) → IsTree D.address (chunks_of draft.now.chunks) root.now.0 rows → result ≡ not (length rows == 0) }
{
    count(draft, root) != 0
}

/// Whether a merge has left something open in a table.
fn is_open<D: Digester>(draft: &Draft<D>, table: &StoredTable) -> bool
    requires { (contents : PlainTable) × IsTableOf D.address (chunks_of draft.now.chunks) table.now contents }
    ensures { (contents : PlainTable) → IsTableOf D.address (chunks_of draft.now.chunks) table.now contents → result ≡ is_open contents }
{
    let conflicts = has_rows(draft, &table.conflicts);
    let violations = has_rows(draft, &table.violations);
    conflicts || violations
}

/// The table after a change, row by row, or the first refusal.
fn changed<D: Digester>(
    alloc: Global,
    draft: &Draft<D>,
    table: &StoredTable,
    change: &ColumnChange,
) -> Result<plain_writes::Table, Refused>
    requires typed { has_type change.now ≡ true }
    requires table { (contents : PlainTable) × IsTableOf D.address (chunks_of draft.now.chunks) table.now contents }
    ensures { (contents : PlainTable) → IsTableOf D.address (chunks_of draft.now.chunks) table.now contents
        → GivesBy table_seen result (table_after contents change.now) }
{
    let rows = read_rows(alloc, draft, &table.schema, &table.rows)?;
    let plain = plain_writes::Table {
        schema: copy_schema(alloc, &table.schema)?,
        rows,
        conflicts: Sequence::new(alloc),
        violations: Sequence::new(alloc),
    };
    table_after(alloc, &plain, change)
}

/// The table after an ALTER, or its first refusal. Of the other tables the schemas alone are read.
fn altered<D: Digester>(
    alloc: Global,
    draft: &Draft<D>,
    database: &Address,
    table: &StoredTable,
    alter: &Alter,
) -> Result<plain_writes::Table, Refused>
    requires kept { HasKeptAt D.address (chunks_of draft.now.chunks) database.now.0 }
    requires table { (contents : PlainTable) × IsTableOf D.address (chunks_of draft.now.chunks) table.now contents }
    ensures { (before : PlainDatabase) (contents : PlainTable) → IsKeptAt D.address (chunks_of draft.now.chunks) database.now.0 before
        → IsTableOf D.address (chunks_of draft.now.chunks) table.now contents → GivesBy table_seen result (table_altered checks before alter.now contents) }
{
    schemas_suffice();
    if is_open(draft, table) {
        return Err(Refused::By(9011));
    }
    let schemas = read_schemas(alloc, draft, database)?;
    let name = alter.table.as_slice();
    let change = change_of::<CanonicalChecks>(
        alloc,
        schemas.as_slice(),
        name,
        &table.schema,
        &alter.action,
    )?;
    changed(alloc, draft, table, &change)
}

/// Puts a new table in place of that of a name: the new database's address.
fn rebuild_table<D: Digester>(
    alloc: Global,
    draft: &mut Draft<D>,
    tables: Vec<TableEntry>,
    name: &[u8],
    schema: Schema,
    rows: &[Row],
) -> Result<Address, PutFault>
    requires { (database : PlainDatabase) × CanRebuild D.address (chunks_of draft.old.chunks) tables.items schema rows.now database }
    ensures stands { (database : PlainDatabase) → CanRebuild D.address (chunks_of draft.old.chunks) tables.items schema rows.now database
        → IfOk result (λ at. IsReadAt D.address (chunks_of draft.new.chunks) at.0 (replaced name.now (table_of_rows schema rows.now) database)) }
    ensures grows { Grows is_data draft.old draft.new }
    ensures cause { IfErr result (IsReason D.address (chunks_of draft.new.chunks)) }
{
    laws_of_growth();
    let table = new_table(alloc, draft, schema, rows)?;
    put_table(alloc, draft, tables, name, &table)
}

/// Changes a column of a table in the database at an address.
pub(crate) fn alter_table<D: Digester>(
    alloc: Global,
    draft: &mut Draft<D>,
    database: &Address,
    alter: &Alter,
) -> Result<Written, SqlFault>
    requires kept { HasKeptAt D.address (chunks_of draft.old.chunks) database.now.0 }
    requires fit { IsFit (write.Alter alter.now) }
    ensures done { (contents : PlainDatabase) → IsKeptAt D.address (chunks_of draft.old.chunks) database.now.0 contents
        → Makes D.address (chunks_of draft.new.chunks) result (alter_effect checks contents alter.now) }
    ensures grows { Grows is_data draft.old draft.new }
{
    laws_of_growth();
    schemas_suffice();
    schemas_keep();
    let name = alter.table.as_slice();
    let found = find(alloc, draft, database, name)?;
    let after = altered(alloc, draft, database, &found.table, alter)?;
    let root = rebuild_table(
        alloc,
        draft,
        found.tables,
        name,
        after.schema,
        after.rows.as_slice(),
    )?;
    Ok(Written { root, rows: 0 })
}
