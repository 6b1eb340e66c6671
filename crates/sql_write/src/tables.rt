//! The tables of a database that a draft keeps: read, found by name, and put into the database.

ghost use Rattle.std.specs.Prelude.{◌≡◌, IfErr, IfOk};
ghost use Rattle.schema_model.specs.PlainTables.{PlainDatabase, PlainTable};
ghost use Rattle.chunk_store.specs.Clashes.{IsReason};
ghost use Rattle.chunk_store.specs.Drafts.{Grows, chunks_of};
ghost use Rattle.chunk_store.specs.Kinds.{is_data};
ghost use Rattle.table_root.specs.Standing.{IsReadAt, IsTableAt, IsTableOf};
ghost use Rattle.plain_writes.specs.Writes.{replaced};
ghost use Rattle.table_root.specs.Kept.{HasKeptAt, IsKeptAt};
ghost use Rattle.sql_write.specs.Putting.{AreListed, AreListedAt, MayReplace, address_in, readdress, readdressed};

use crate::laws::laws_of_growth;
use chunk_store::{Draft, PutFault};
use std::alloc::{AllocError, Global};
use table_root::{StoredTable, TableEntry, read_database, read_table, write_database};
use tuple_codec::{Address, Digester};
use violation_lists::keep_table;

/// The names and addresses of the tables of the database at an address, by rising name. None of the tables is read.
pub fn read_tables<D: Digester>(
    alloc: Global,
    draft: &Draft<D>,
    database: &Address,
) -> Result<Vec<TableEntry>, AllocError>
    requires { HasKeptAt D.address (chunks_of draft.now.chunks) database.now.0 }
    ensures { (contents : PlainDatabase) → IsKeptAt D.address (chunks_of draft.now.chunks) database.now.0 contents
        → IfOk result (λ tables. AreListedAt D.address (chunks_of draft.now.chunks) database.now.0 tables.items contents) }
{
    laws_of_growth();
    read_database(alloc, draft, database)
}

/// The address of the first table of a name. Every table before it is looked at.
pub fn table_in(tables: &[TableEntry], name: &[u8]) -> Option<Address>
    ensures { result ≡ address_in tables.now name.now }
{
    for named in tables {
        if named.name.as_slice() == name {
            return Some(named.table);
        }
    }
    None
}

/// The table at an address: its schema, and the roots of its trees.
pub(crate) fn table_at<D: Digester>(
    alloc: Global,
    draft: &Draft<D>,
    address: &Address,
) -> Result<StoredTable, AllocError>
    requires { (contents : PlainTable) × IsTableAt D.address (chunks_of draft.now.chunks) address.now.0 contents }
    ensures { (contents : PlainTable) → IsTableAt D.address (chunks_of draft.now.chunks) address.now.0 contents
        → IfOk result (λ table. IsTableOf D.address (chunks_of draft.now.chunks) table contents) }
{
    laws_of_growth();
    read_table(alloc, draft, address)
}

/// Puts an address under a name, in place of that which stood there.
fn put_address(tables: &mut Vec<TableEntry>, name: &[u8], table: Address)
    ensures { tables.new.items ≡ readdressed name.now table tables.old.items }
{
    readdress_all(tables.as_mut_slice(), name, table);
}

/// The same of entries in a slice.
fn readdress_all(tables: &mut [TableEntry], name: &[u8], table: Address)
    ensures { tables.new ≡ readdressed name.now table tables.old }
{
    for named in tables.iter_mut() {
        readdress(named, name, table);
    }
}

/// The same of one of them.
fn readdress(named: &mut TableEntry, name: &[u8], table: Address)
    ensures { named.new ≡ readdress name.now table named.old }
{
    if named.name.is(name) {
        named.table = table;
    }
}

/// Writes a database that these tables are. The tables stand in the draft already; what constrains them is not judged here, nor how many rows they have.
pub fn put_database<D: Digester>(
    alloc: Global,
    draft: &mut Draft<D>,
    tables: &[TableEntry],
) -> Result<Address, PutFault>
    requires { (database : PlainDatabase) × AreListed D.address (chunks_of draft.old.chunks) tables.now database }
    ensures stands { (database : PlainDatabase) → AreListed D.address (chunks_of draft.old.chunks) tables.now database
        → IfOk result (λ at. IsReadAt D.address (chunks_of draft.new.chunks) at.0 database) }
    ensures grows { Grows is_data draft.old draft.new }
    ensures cause { IfErr result (IsReason D.address (chunks_of draft.new.chunks)) }
{
    laws_of_growth();
    let at = write_database(alloc, draft, tables)?;
    Ok(at)
}

/// Writes a table, and the database in which it stands in place of the one of this name: the new database's address. The table's trees
/// stand in the draft already; what constrains the tables is not judged here.
pub fn put_table<D: Digester>(
    alloc: Global,
    draft: &mut Draft<D>,
    mut tables: Vec<TableEntry>,
    name: &[u8],
    table: &StoredTable,
) -> Result<Address, PutFault>
    requires { (database : PlainDatabase) × (contents : PlainTable) × MayReplace D.address (chunks_of draft.old.chunks) tables.items table.now database contents }
    ensures stands { (database : PlainDatabase) (contents : PlainTable) → MayReplace D.address (chunks_of draft.old.chunks) tables.items table.now database contents
        → IfOk result (λ at. IsReadAt D.address (chunks_of draft.new.chunks) at.0 (replaced name.now contents database)) }
    ensures grows { Grows is_data draft.old draft.new }
    ensures cause { IfErr result (IsReason D.address (chunks_of draft.new.chunks)) }
{
    laws_of_growth();
    let address = keep_table(alloc, draft, table)?;
    put_address(&mut tables, name, address);
    put_database(alloc, draft, tables.as_slice())
}
