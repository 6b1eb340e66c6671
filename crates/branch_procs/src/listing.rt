//! The lists of databases' tables, by name and address: read from a draft, and written.

ghost use Rattle.std.specs.Prelude.{IfErr, IfOk};
ghost use Rattle.schema_model.specs.PlainTables.{PlainDatabase};
ghost use Rattle.chunk_store.specs.Clashes.{IsReason};
ghost use Rattle.chunk_store.specs.Drafts.{Grows, chunks_of};
ghost use Rattle.chunk_store.specs.Kinds.{is_database};
ghost use Rattle.table_root.specs.Kept.{HasKeptAt, IsKeptAt};
ghost use Rattle.branch_procs.specs.Listing.{AreFewTables};

use chunk_store::{Draft, PutFault};
use sql_write::laws_of_growth;
use std::alloc::{AllocError, Global};
use table_root::{TableEntry, read_database, write_database};
use tuple_codec::{Address, Digester};

/// The names and addresses of the tables of the database at an address, by rising name.
pub(crate) fn read_tables<D: Digester>(
    alloc: Global,
    draft: &Draft<D>,
    database: &Address,
) -> Result<Vec<TableEntry>, AllocError>
    requires { HasKeptAt D.address (chunks_of draft.now.chunks) database.now.0 }
    ensures { (contents : PlainDatabase) → IsKeptAt D.address (chunks_of draft.now.chunks) database.now.0 contents
        → IfOk result (λ tables. AreFewTables D.address (chunks_of draft.now.chunks) tables.items contents) }
{
    laws_of_growth();
    read_database(alloc, draft, database)
}

/// Writes the database that these tables are.
pub(crate) fn put_database<D: Digester>(
    alloc: Global,
    draft: &mut Draft<D>,
    tables: &[TableEntry],
) -> Result<Address, PutFault>
    requires { (database : PlainDatabase) × AreFewTables D.address (chunks_of draft.old.chunks) tables.now database }
    ensures stands { (database : PlainDatabase) → AreFewTables D.address (chunks_of draft.old.chunks) tables.now database
        → IfOk result (λ at. IsKeptAt D.address (chunks_of draft.new.chunks) at.0 database) }
    ensures grows { Grows is_database draft.old draft.new }
    ensures cause { IfErr result (IsReason D.address (chunks_of draft.new.chunks)) }
{
    laws_of_growth();
    let at = write_database(alloc, draft, tables)?;
    Ok(at)
}
