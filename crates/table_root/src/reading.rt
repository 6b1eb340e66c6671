//! All rows of a table.

ghost use Rattle.std.specs.Prelude.{◌≡◌, true, List, IfOk};
ghost use Rattle.chunk_store.specs.Drafts.{chunks_of};
ghost use Rattle.schema_model.specs.Schemas.{is_schema};
ghost use Rattle.tuple_codec.specs.Rows.{Cells};
ghost use Rattle.table_root.specs.Rows.{AreRowsAt, HasRowsAt};

use crate::items::read_row;
use crate::types::ItemTypes;
use chunk_store::Draft;
use prolly_tree::scan_from;
use schema_model::Schema;
use std::alloc::{AllocError, Global};
use tuple_codec::{Address, Digester, Row, Sequence};

/// The rows of the tree at an address, by rising primary key. Each leaf is read once.
pub fn read_rows<D: Digester>(
    alloc: Global,
    draft: &Draft<D>,
    schema: &Schema,
    root: &Address,
) -> Result<Sequence<Row>, AllocError>
    requires schema { is_schema schema.now ≡ true }
    requires tree { HasRowsAt D.address (chunks_of draft.now.chunks) root.now.0 schema.now }
    ensures { (rows : List Cells) → AreRowsAt D.address (chunks_of draft.now.chunks) root.now.0 schema.now rows
        → IfOk result (λ read. read ≡ rows) }
{
    let types = ItemTypes::new(alloc, schema)?;
    let mut rows = Sequence::new(alloc);
    let mut scan = scan_from(alloc, draft, root, &[])?;
    'rows: while let Some((key, value)) = scan.next() {
        rows.push(read_row(alloc, schema, &types, key, value)?)?;
    }
    Ok(rows)
}
