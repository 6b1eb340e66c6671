//! What tables have recorded: conflicts and violations.

ghost use Rattle.std.specs.Prelude.{◌≡◌, ◌==◌, not, List, length, IfOk};
ghost use Rattle.tuple_codec.specs.Nodes.{Item};
ghost use Rattle.schema_model.specs.PlainTables.{PlainDatabase, PlainTable};
ghost use Rattle.chunk_store.specs.Drafts.{chunks_of};
ghost use Rattle.chunk_store.specs.Standing.{IsTree};
ghost use Rattle.table_root.specs.Standing.{AreThere, IsTableAt};
ghost use Rattle.plain_sessions.specs.Branching.{is_open, is_open_table};

use chunk_store::Draft;
use prolly_tree::count;
use sql_write::laws_of_growth;
use std::alloc::{AllocError, Global};
use table_root::{TableEntry, read_table};
use tuple_codec::{Address, Digester};

/// Whether a tree has rows.
fn has_rows<D: Digester>(draft: &Draft<D>, root: &Address) -> bool
    requires { (rows : List Item) × IsTree D.address (chunks_of draft.now.chunks) root.now.0 rows }
    ensures { (rows : List Item) → IsTree D.address (chunks_of draft.now.chunks) root.now.0 rows → result ≡ not (length rows == 0) }
{
    count(draft, root) != 0
}

/// Whether the table at an address has conflicts or violations.
pub(crate) fn is_open_table<D: Digester>(
    alloc: Global,
    draft: &Draft<D>,
    address: &Address,
) -> Result<bool, AllocError>
    requires { (contents : PlainTable) × IsTableAt D.address (chunks_of draft.now.chunks) address.now.0 contents }
    ensures { (contents : PlainTable) → IsTableAt D.address (chunks_of draft.now.chunks) address.now.0 contents
        → IfOk result (λ found. found ≡ is_open_table contents) }
{
    laws_of_growth();
    let table = read_table(alloc, draft, address)?;
    let conflicts = has_rows(draft, &table.conflicts);
    if conflicts {
        return Ok(true);
    }
    let violations = has_rows(draft, &table.violations);
    Ok(violations)
}

/// Whether one of these tables has conflicts or violations. There are few tables, so the calls don't go deep.
pub(crate) fn any_is_open<D: Digester>(
    alloc: Global,
    draft: &Draft<D>,
    tables: &[TableEntry],
) -> Result<bool, AllocError>
    requires { (database : PlainDatabase) × AreThere D.address (chunks_of draft.now.chunks) database tables.now }
    ensures { (database : PlainDatabase) → AreThere D.address (chunks_of draft.now.chunks) database tables.now
        → IfOk result (λ found. found ≡ is_open database) }
{
    let [first, rest @ ..] = tables else {
        return Ok(false);
    };
    let open = is_open_table(alloc, draft, &first.table)?;
    if open {
        return Ok(true);
    }
    any_is_open(alloc, draft, rest)
}
