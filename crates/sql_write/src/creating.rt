//! CREATE TABLE over trees.

ghost use Rattle.std.specs.Prelude.{IfErr, IfOk};
ghost use Rattle.schema_model.specs.PlainTables.{PlainDatabase};
ghost use Rattle.sql_ast.specs.declared.statements.Write.TheVariants as write;
ghost use Rattle.chunk_store.specs.Clashes.{IsReason};
ghost use Rattle.chunk_store.specs.Drafts.{Grows, chunks_of};
ghost use Rattle.chunk_store.specs.Kinds.{is_data};
ghost use Rattle.table_root.specs.Standing.{IsReadAt};
ghost use Rattle.plain_schemas.specs.Effects.{create_effect, with_table};
ghost use Rattle.table_root.specs.Kept.{HasKeptAt, IsKeptAt};
ghost use Rattle.sql_laws.specs.Fit.{IsFit};
ghost use Rattle.sql_write.specs.Adding.{CanAdd};
ghost use Rattle.sql_write.specs.Making.{Makes};

use crate::building::new_table;
use crate::faults::SqlFault;
use crate::laws::laws_of_growth;
use crate::listing::placed;
use crate::schemas::{schema_created, schemas_suffice};
use crate::tables::{put_database, read_tables};
use crate::writing::Written;
use chunk_store::{Draft, PutFault};
use keep_laws::schemas_keep;
use schema_model::Schema;
use sql_ast::CreateTable;
use std::alloc::Global;
use table_root::TableEntry;
use tuple_codec::{Address, Digester, Text};
use violation_lists::{keep_table, read_schemas};

/// Puts an empty table of this schema into a database: the new database's address.
fn add_table<D: Digester>(
    alloc: Global,
    draft: &mut Draft<D>,
    tables: Vec<TableEntry>,
    name: &[u8],
    schema: Schema,
) -> Result<Address, PutFault>
    requires { (database : PlainDatabase) × CanAdd D.address (chunks_of draft.old.chunks) tables.items name.now schema database }
    ensures stands { (database : PlainDatabase) → CanAdd D.address (chunks_of draft.old.chunks) tables.items name.now schema database
        → IfOk result (λ at. IsReadAt D.address (chunks_of draft.new.chunks) at.0 (with_table database name.now schema)) }
    ensures grows { Grows is_data draft.old draft.new }
    ensures cause { IfErr result (IsReason D.address (chunks_of draft.new.chunks)) }
{
    laws_of_growth();
    let table = new_table(alloc, draft, schema, &[])?;
    let address = keep_table(alloc, draft, &table)?;
    let new = TableEntry {
        name: Text::from_slice(alloc, name)?,
        table: address,
    };
    let made = placed(tables, new)?;
    put_database(alloc, draft, made.as_slice())
}

/// Puts a new table into the database at an address.
pub(crate) fn create_table<D: Digester>(
    alloc: Global,
    draft: &mut Draft<D>,
    database: &Address,
    create: &CreateTable,
) -> Result<Written, SqlFault>
    requires kept { HasKeptAt D.address (chunks_of draft.old.chunks) database.now.0 }
    requires fit { IsFit (write.Create create.now) }
    ensures done { (contents : PlainDatabase) → IsKeptAt D.address (chunks_of draft.old.chunks) database.now.0 contents
        → Makes D.address (chunks_of draft.new.chunks) result (create_effect contents create.now) }
    ensures grows { Grows is_data draft.old draft.new }
{
    laws_of_growth();
    schemas_suffice();
    schemas_keep();
    let tables = read_tables(alloc, draft, database)?;
    let schemas = read_schemas(alloc, draft, database)?;
    let found = schema_created(alloc, schemas.as_slice(), create)?;
    match found {
        None => Ok(Written {
            root: *database,
            rows: 0,
        }),
        Some(schema) => {
            let root = add_table(alloc, draft, tables, create.table.as_slice(), schema)?;
            Ok(Written { root, rows: 0 })
        }
    }
}
