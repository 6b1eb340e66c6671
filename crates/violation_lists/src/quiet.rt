//! Databases of which no row breaks a constraint, told by their schemas and by one key of each table: most are so.

ghost use Rattle.std.specs.Prelude.{◌≡◌, IfOk};
ghost use Rattle.schema_model.specs.PlainTables.{PlainDatabase, PlainTable};
ghost use Rattle.chunk_store.specs.Drafts.{chunks_of};
ghost use Rattle.table_root.specs.Standing.{AreThere, IsTableAt, IsTableOf};
ghost use Rattle.violation_lists.specs.Thinned.{are_quiet, is_quiet};

use crate::thinning::is_judged;
use chunk_store::Draft;
use prolly_tree::get;
use std::alloc::{AllocError, Global};
use table_root::{StoredTable, TableEntry, law_of_tables, read_table};
use tuple_codec::{Address, Digester};

/// Whether no row of the table breaks a constraint: none but that of key NULL may, and it isn't there. NULL is spelled as a zero byte.
fn is_quiet<D: Digester>(draft: &Draft<D>, table: &StoredTable) -> bool
    requires { (contents : PlainTable) × IsTableOf D.address (chunks_of draft.now.chunks) table.now contents }
    ensures { (contents : PlainTable) → IsTableOf D.address (chunks_of draft.now.chunks) table.now contents → result ≡ is_quiet contents }
{
    !is_judged(&table.schema) && get(draft, &table.rows, &[0]).is_none()
}

/// The same of the table at an address.
fn is_quiet_at<D: Digester>(
    alloc: Global,
    draft: &Draft<D>,
    address: &Address,
) -> Result<bool, AllocError>
    requires { (contents : PlainTable) × IsTableAt D.address (chunks_of draft.now.chunks) address.now.0 contents }
    ensures { (contents : PlainTable) → IsTableAt D.address (chunks_of draft.now.chunks) address.now.0 contents
        → IfOk result (λ quiet. quiet ≡ is_quiet contents) }
{
    law_of_tables();
    let table = read_table(alloc, draft, address)?;
    Ok(is_quiet(draft, &table))
}

/// The same of all of these tables, of which none behind the first that isn't so is read. There are few tables, so the calls don't go deep.
pub(crate) fn are_quiet<D: Digester>(
    alloc: Global,
    draft: &Draft<D>,
    entries: &[TableEntry],
) -> Result<bool, AllocError>
    requires { (database : PlainDatabase) × AreThere D.address (chunks_of draft.now.chunks) database entries.now }
    ensures { (database : PlainDatabase) → AreThere D.address (chunks_of draft.now.chunks) database entries.now
        → IfOk result (λ quiet. quiet ≡ are_quiet database) }
{
    let [first, rest @ ..] = entries else {
        return Ok(true);
    };
    let quiet = is_quiet_at(alloc, draft, &first.table)?;
    if !quiet {
        return Ok(false);
    }
    are_quiet(alloc, draft, rest)
}
