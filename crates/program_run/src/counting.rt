//! How many rows the workload's table has.

ghost use Rattle.std.specs.Prelude.{◌≡◌, IfOk, bytes_eq, codes, is_some, length, true};
ghost use Rattle.std.specs.List.{find};
ghost use Rattle.schema_model.specs.PlainTables.{PlainDatabase, PlainTable};
ghost use Rattle.chunk_store.specs.Chunks.{chunk_bytes};
ghost use Rattle.chunk_store.specs.Drafts.{chunks_of};
ghost use Rattle.chunk_store.specs.Stores.{all_chunks};
ghost use Rattle.table_root.specs.Standing.{AreThere, IsTableAt};
ghost use Rattle.table_root.specs.Kept.{HasKeptAt, IsKeptAt};
ghost use Rattle.plain_sessions.specs.Records.{Shared};
ghost use Rattle.session_state.specs.Changes.{StateStands};
ghost use Rattle.program_run.specs.Loading.{is_main, load_rows_in, rows_in};

use crate::lines::main_in;
use chunk_region::PagePool;
use chunk_store::Draft;
use prolly_tree::count;
use session_state::law_of_states;
use shared_db::SharedDb;
use std::alloc::{AllocError, Global};
use table_root::{
    BranchName, Look, TableEntry, law_of_databases, law_of_tables, read_database, read_table,
};
use tuple_codec::{Address, Digester};

/// How many rows `load_rows` has in what `main` is working on; none where it isn't there.
pub(crate) fn count_rows<D: Digester>(alloc: Global, db: &SharedDb) -> Result<u64, AllocError>
    requires { (shared : Shared) × StateStands D.address db.now.parts shared }
    ensures { (shared : Shared) → StateStands D.address db.now.parts shared → IfOk result (λ rows. rows ≡ rows_in shared) }
{
    let there = is_main_there(alloc, db)?;
    if there {
        return rows_on_main::<D>(alloc, db);
    }
    Ok(0)
}

/// Whether there is a branch `main`.
fn is_main_there(alloc: Global, db: &SharedDb) -> Result<bool, AllocError>
    ensures { IfOk result (λ there. there ≡ is_some (find is_main db.now.parts.branches)) }
{
    let lines = db.branch_lines(alloc)?;
    Ok(main_in(lines.as_slice()).is_some())
}

/// How many rows the table has in what `main`, which is there, is working on.
fn rows_on_main<D: Digester>(alloc: Global, db: &SharedDb) -> Result<u64, AllocError>
    requires there { is_some (find is_main db.now.parts.branches) ≡ true }
    requires state { (shared : Shared) × StateStands D.address db.now.parts shared }
    ensures { (shared : Shared) → StateStands D.address db.now.parts shared → IfOk result (λ rows. rows ≡ rows_in shared) }
{
    law_of_states();
    let name = main_name();
    let look = db.look(alloc, &name)?;
    rows_seen::<D>(alloc, look)
}

/// The name of the branch with which a database opens.
fn main_name() -> BranchName
    ensures { result ≡ codes "main" }
{
    match BranchName::read(b"main") {
        Some(name) => name,
        None => unreachable!(),
    }
}

/// How many rows the table has in what a look's branch is working on.
fn rows_seen<D: Digester>(alloc: Global, look: Look) -> Result<u64, AllocError>
    requires { HasKeptAt D.address (chunk_bytes (all_chunks look.store)) look.rec.working.0 }
    ensures { (contents : PlainDatabase) → IsKeptAt D.address (chunk_bytes (all_chunks look.store)) look.rec.working.0 contents
        → IfOk result (λ rows. rows ≡ load_rows_in contents) }
{
    let pool = PagePool::with_pages(alloc, 0)?;
    let draft: Draft<D> = Draft::new(look.store, pool);
    rows_at(alloc, &draft, &look.rec.working)
}

/// How many rows the table has in the database at an address.
fn rows_at<D: Digester>(
    alloc: Global,
    draft: &Draft<D>,
    database: &Address,
) -> Result<u64, AllocError>
    requires { HasKeptAt D.address (chunks_of draft.now.chunks) database.now.0 }
    ensures { (contents : PlainDatabase) → IsKeptAt D.address (chunks_of draft.now.chunks) database.now.0 contents
        → IfOk result (λ rows. rows ≡ load_rows_in contents) }
{
    law_of_databases();
    let tables = read_database(alloc, draft, database)?;
    rows_among(alloc, draft, tables.as_slice())
}

/// How many rows the table has among these. There are few tables, so the calls don't go deep.
fn rows_among<D: Digester>(
    alloc: Global,
    draft: &Draft<D>,
    tables: &[TableEntry],
) -> Result<u64, AllocError>
    requires { (database : PlainDatabase) × AreThere D.address (chunks_of draft.now.chunks) database tables.now }
    ensures { (database : PlainDatabase) → AreThere D.address (chunks_of draft.now.chunks) database tables.now
        → IfOk result (λ rows. rows ≡ load_rows_in database) }
{
    let [first, rest @ ..] = tables else {
        return Ok(0);
    };
    let load = is_load_table(first);
    if load {
        return rows_of(alloc, draft, &first.table);
    }
    rows_among(alloc, draft, rest)
}

/// Whether this is the workload's table.
fn is_load_table(named: &TableEntry) -> bool
    ensures { result ≡ bytes_eq named.now.name (codes "load_rows") }
{
    named.name.as_slice() == b"load_rows".as_slice()
}

/// How many rows the table at an address has. Of its rows, none is read.
fn rows_of<D: Digester>(
    alloc: Global,
    draft: &Draft<D>,
    address: &Address,
) -> Result<u64, AllocError>
    requires { (contents : PlainTable) × IsTableAt D.address (chunks_of draft.now.chunks) address.now.0 contents }
    ensures { (contents : PlainTable) → IsTableAt D.address (chunks_of draft.now.chunks) address.now.0 contents
        → IfOk result (λ rows. rows ≡ length contents.rows) }
{
    law_of_tables();
    let table = read_table(alloc, draft, address)?;
    Ok(count(draft, &table.rows))
}
