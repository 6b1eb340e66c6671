//! The table that a statement names, found and read.

ghost use Rattle.schema_model.specs.PlainTables.{PlainDatabase};
ghost use Rattle.chunk_store.specs.Drafts.{chunks_of};
ghost use Rattle.plain_writes.specs.Violations.{table_in};
ghost use Rattle.table_root.specs.Kept.{HasKeptAt, IsKeptAt};
ghost use Rattle.sql_write.specs.Finding.{Finds};

use crate::faults::SqlFault;
use crate::tables::{read_tables, table_at, table_in};
use chunk_store::Draft;
use std::alloc::Global;
use table_root::{StoredTable, TableEntry};
use tuple_codec::{Address, Digester};

/// A table of a database, with the names and addresses of all of its tables.
#[derive(Drop)]
pub struct Found {
    /// By rising name, as `put_table` takes them.
    pub tables: Vec<TableEntry>,
    /// The one that was named.
    pub table: StoredTable,
}

/// The table of a name in the database at an address; refused with 1146 where there is none. Of the other tables nothing is read but names and addresses,
/// and no row of any.
pub fn find<D: Digester>(
    alloc: Global,
    draft: &Draft<D>,
    database: &Address,
    name: &[u8],
) -> Result<Found, SqlFault>
    requires { HasKeptAt D.address (chunks_of draft.now.chunks) database.now.0 }
    ensures { (contents : PlainDatabase) → IsKeptAt D.address (chunks_of draft.now.chunks) database.now.0 contents
        → Finds D.address (chunks_of draft.now.chunks) database.now.0 name.now contents result (table_in contents name.now) }
{
    let tables = read_tables(alloc, draft, database)?;
    match table_in(tables.as_slice(), name) {
        Some(address) => {
            let table = table_at(alloc, draft, &address)?;
            Ok(Found { tables, table })
        }
        None => Err(SqlFault::Refused(1146)),
    }
}
