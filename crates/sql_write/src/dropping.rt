//! DROP TABLE over trees.

ghost use Rattle.schema_model.specs.PlainTables.{PlainDatabase};
ghost use Rattle.chunk_store.specs.Drafts.{Grows, chunks_of};
ghost use Rattle.chunk_store.specs.Kinds.{is_data};
ghost use Rattle.plain_schemas.specs.Effects.{drop_effect};
ghost use Rattle.table_root.specs.Kept.{HasKeptAt, IsKeptAt};
ghost use Rattle.sql_write.specs.Making.{Makes};

use crate::faults::SqlFault;
use crate::laws::laws_of_growth;
use crate::listing::without;
use crate::schemas::{schemas_suffice, table_goes};
use crate::tables::{put_database, read_tables};
use crate::writing::Written;
use chunk_store::Draft;
use keep_laws::schemas_keep;
use sql_ast::DropTable;
use std::alloc::Global;
use tuple_codec::{Address, Digester};
use violation_lists::read_schemas;

/// Takes a table out of the database at an address.
pub(crate) fn drop_table<D: Digester>(
    alloc: Global,
    draft: &mut Draft<D>,
    database: &Address,
    statement: &DropTable,
) -> Result<Written, SqlFault>
    requires { HasKeptAt D.address (chunks_of draft.old.chunks) database.now.0 }
    ensures done { (contents : PlainDatabase) → IsKeptAt D.address (chunks_of draft.old.chunks) database.now.0 contents
        → Makes D.address (chunks_of draft.new.chunks) result (drop_effect contents statement.now) }
    ensures grows { Grows is_data draft.old draft.new }
{
    laws_of_growth();
    schemas_suffice();
    schemas_keep();
    let tables = read_tables(alloc, draft, database)?;
    let schemas = read_schemas(alloc, draft, database)?;
    let goes = table_goes(alloc, schemas.as_slice(), statement)?;
    if !goes {
        return Ok(Written {
            root: *database,
            rows: 0,
        });
    }
    let left = without(alloc, tables, statement.table.as_slice())?;
    let root = put_database(alloc, draft, left.as_slice())?;
    Ok(Written { root, rows: 0 })
}
