//! Databases and tables, read from a draft.

ghost use Rattle.std.specs.Prelude.{◌≡◌, Option, IfOk};
ghost use Rattle.schema_model.specs.PlainTables.{PlainDatabase, PlainTable};
ghost use Rattle.chunk_store.specs.Drafts.{chunks_of};
ghost use Rattle.table_merge.specs.Merging.{AreSides, IsSide, IsSidePerhaps, PlainSides};
ghost use Rattle.table_root.specs.Kept.{HasKeptAt, IsKeptAt};
ghost use Rattle.root_merge.specs.Kept.{AreKept, AreKeptSides, IsKeptPerhaps, IsKeptTable};

use crate::laws::laws_of_growth;
use chunk_store::Draft;
use std::alloc::{AllocError, Global};
use table_root::{StoredTable, TableEntry, read_database, read_table};
use tuple_codec::{Address, Digester};

/// The names and addresses of the tables of the database at an address, by rising name.
pub(crate) fn read_tables<D: Digester>(
    alloc: Global,
    draft: &Draft<D>,
    database: &Address,
) -> Result<Vec<TableEntry>, AllocError>
    requires { HasKeptAt D.address (chunks_of draft.now.chunks) database.now.0 }
    ensures { (contents : PlainDatabase) → IsKeptAt D.address (chunks_of draft.now.chunks) database.now.0 contents
        → IfOk result (λ tables. AreKept D.address (chunks_of draft.now.chunks) tables.items contents) }
{
    laws_of_growth();
    read_database(alloc, draft, database)
}

/// The table at an address.
fn table_at<D: Digester>(
    alloc: Global,
    draft: &Draft<D>,
    address: &Address,
) -> Result<StoredTable, AllocError>
    requires { (contents : PlainTable) × IsKeptTable D.address (chunks_of draft.now.chunks) address.now.0 contents }
    ensures { (contents : PlainTable) → IsKeptTable D.address (chunks_of draft.now.chunks) address.now.0 contents
        → IfOk result (λ table. IsSide D.address (chunks_of draft.now.chunks) table contents) }
{
    laws_of_growth();
    read_table(alloc, draft, address)
}

/// The same of a table that may be absent.
fn base_at<D: Digester>(
    alloc: Global,
    draft: &Draft<D>,
    address: Option<Address>,
) -> Result<Option<StoredTable>, AllocError>
    requires { (contents : Option PlainTable) × IsKeptPerhaps D.address (chunks_of draft.now.chunks) address contents }
    ensures { (contents : Option PlainTable) → IsKeptPerhaps D.address (chunks_of draft.now.chunks) address contents
        → IfOk result (λ table. IsSidePerhaps D.address (chunks_of draft.now.chunks) table contents) }
{
    match address {
        Some(address) => {
            let table = table_at(alloc, draft, &address)?;
            Ok(Some(table))
        }
        None => Ok(None),
    }
}

/// Tables of one name, whose rows are merged.
#[derive(Drop)]
pub(crate) struct Sides {
    pub base: Option<StoredTable>,
    pub ours: StoredTable,
    pub theirs: StoredTable,
}

/// The tables at these addresses.
pub(crate) fn sides_at<D: Digester>(
    alloc: Global,
    draft: &Draft<D>,
    base: Option<Address>,
    ours: &Address,
    theirs: &Address,
) -> Result<Sides, AllocError>
    requires { (contents : PlainSides) × AreKeptSides D.address (chunks_of draft.now.chunks) base ours.now theirs.now contents }
    ensures { (contents : PlainSides) → AreKeptSides D.address (chunks_of draft.now.chunks) base ours.now theirs.now contents
        → IfOk result (λ sides. AreSides D.address (chunks_of draft.now.chunks) sides.base sides.ours sides.theirs contents) }
{
    let base = base_at(alloc, draft, base)?;
    let ours = table_at(alloc, draft, ours)?;
    let theirs = table_at(alloc, draft, theirs)?;
    Ok(Sides { base, ours, theirs })
}
