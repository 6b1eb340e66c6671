//! A statement that writes, by its kind.

ghost use Rattle.schema_model.specs.PlainTables.{PlainDatabase};
ghost use Rattle.chunk_store.specs.Drafts.{Grows, Longer, chunks_of};
ghost use Rattle.chunk_store.specs.Kinds.{is_data};
ghost use Rattle.table_root.specs.Kept.{HasKeptAt, IsKeptAt};
ghost use Rattle.plain_schemas.specs.Statements.{write_effect};
ghost use Rattle.sql_laws.specs.Fit.{IsFit};
ghost use Rattle.sql_write.specs.Making.{Makes};
ghost use Rattle.sql_write.specs.Writing.{Writes};

use crate::altering::alter_table;
use crate::creating::create_table;
use crate::dropping::drop_table;
use crate::faults::SqlFault;
use crate::inserting::insert;
use crate::laws::laws_of_growth;
use crate::updating::{delete, update};
use chunk_store::Draft;
use keep_laws::all_keep;
use sql_ast::Write;
use std::alloc::Global;
use tuple_codec::{Address, Digester};

/// The database after a statement, and how many rows it wrote: 0 where the reply tells no number.
#[derive(Clone, Copy, PartialEq, Eq)]
pub struct Written {
    pub root: Address,
    pub rows: u64,
}

/// Does a statement, whatever the new database is.
#[tactic(auto, unfolding(plain_schemas::specs::Statements::write_effect))]
fn made<D: Digester>(
    alloc: Global,
    draft: &mut Draft<D>,
    database: &Address,
    statement: &Write,
) -> Result<Written, SqlFault>
    requires kept { HasKeptAt D.address (chunks_of draft.old.chunks) database.now.0 }
    requires fit { IsFit statement.now }
    ensures done { (contents : PlainDatabase) → IsKeptAt D.address (chunks_of draft.old.chunks) database.now.0 contents
        → Makes D.address (chunks_of draft.new.chunks) result (write_effect contents statement.now) }
    ensures grows { Grows is_data draft.old draft.new }
{
    match statement {
        Write::Create(create) => create_table(alloc, draft, database, create),
        Write::Drop(drop) => drop_table(alloc, draft, database, drop),
        Write::Insert(insert_rows) => insert(alloc, draft, database, insert_rows),
        Write::Update(change) => update(alloc, draft, database, change),
        Write::Delete(removal) => delete(alloc, draft, database, removal),
        Write::Alter(alter) => alter_table(alloc, draft, database, alter),
    }
}

/// Does a statement that writes on the database at an address, or gives its first refusal. The old database stays as it is: what
/// differs is put into the draft, and the new database has an address of its own.
pub fn write<D: Digester>(
    alloc: Global,
    draft: &mut Draft<D>,
    database: &Address,
    statement: &Write,
) -> Result<Written, SqlFault>
    requires kept { HasKeptAt D.address (chunks_of draft.old.chunks) database.now.0 }
    requires fit { IsFit statement.now }
    ensures done { (contents : PlainDatabase) → IsKeptAt D.address (chunks_of draft.old.chunks) database.now.0 contents
        → Writes D.address (chunks_of draft.new.chunks) result (write_effect contents statement.now) }
    ensures grows { Grows is_data draft.old draft.new }
    ensures longer { Longer draft.old.chunks draft.new.chunks }
{
    all_keep();
    laws_of_growth();
    made(alloc, draft, database, statement)
}
