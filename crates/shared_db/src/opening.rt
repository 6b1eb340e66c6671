//! The two chunks that a database is opened with.

ghost use Rattle.std.specs.Prelude.{◌≡◌, ◌≢◌, ◌≤ℤ◌, ◌*◌, ◌≤◌, ◌<◌, ◌^◌, ℕ, List, [], pos, length, sum, None, Some, IfOk, IfErr, OnOk};
ghost use Rattle.std.specs.Option.{option_map};
ghost use Rattle.chunk_store.specs.Drafts.{chunks_of};
ghost use Rattle.chunk_store.specs.Stores.{AreFew, all_chunks};
ghost use Rattle.chunk_store.specs.declared.faults.PutFault.TheVariants as PutFault;
ghost use Rattle.commit_graph.specs.Commits.{KeepsLimits, parts_of};
ghost use Rattle.plain_sessions.specs.Records.{first_commit};
ghost use Rattle.schema_model.specs.PlainCommits.{commit_address, commit_parts};
ghost use Rattle.schema_model.specs.WrittenForms.{database_address};
ghost use Rattle.shared_db.specs.Opening.{IsOpened, IsOpeningFault, HasJust, both_alone, empty_alone};

use chunk_region::PagePool;
use chunk_store::{Draft, PutFault, Store, law_of_chunks};
use commit_graph::{CommitRecord, write_commit};
use std::alloc::{AllocError, Global};
use table_root::write_database;
use tuple_codec::{Address, BranchRecord, Digester, Sequence, Text};

/// A store that has the empty database and the first commit, and the record of the branch that is at it.
#[derive(Drop)]
pub struct Opened {
    pub store: Store,
    pub rec: BranchRecord,
}

/// Puts the two chunks. Where they have one address, the empty database is the one held.
pub fn open_store<D: Digester>(alloc: Global, epoch: i64) -> Result<Opened, PutFault>
    requires { pos 0 ≤ℤ epoch }
    ensures opened { IfOk result (λ opened. IsOpened D.address epoch (all_chunks opened.store) opened.rec) }
    ensures few { IfOk result (λ opened. AreFew opened.store.segments) }
    ensures fault { IfErr result (IsOpeningFault D.address epoch) }
{
    law_of_chunks();
    let mut draft = empty_draft::<D>(alloc)?;
    let database = put_database(alloc, &mut draft)?;
    let commit = put_commit(alloc, &mut draft, database, epoch)?;
    know_length(database);
    know_length(commit);
    let store = store_of(alloc, draft)?;
    store.tell();
    Ok(Opened {
        store,
        rec: record_at_first(commit, database),
    })
}

/// The record of a branch at this commit, on which nothing has changed.
fn record_at_first(commit: Address, database: Address) -> BranchRecord
    ensures { result ≡ record { head = commit; working = database; staged = database; merging = None } }
{
    BranchRecord {
        head: commit,
        working: database,
        staged: database,
        merging: None,
    }
}

fn empty_draft<D: Digester>(alloc: Global) -> Result<Draft<D>, AllocError>
    ensures chunks { IfOk result (λ draft. draft.chunks ≡ record { base = []; own = [] }) }
    ensures segments { IfOk result (λ draft. draft.segments ≡ []) }
{
    let pool = PagePool::with_pages(alloc, 0)?;
    Ok(Draft::new(Store::new(alloc), pool))
}

/// Puts the database without a table into a draft without a chunk.
fn put_database<D: Digester>(alloc: Global, draft: &mut Draft<D>) -> Result<Address, PutFault>
    requires { draft.old.chunks ≡ record { base = []; own = [] } }
    ensures alone { OnOk result (draft.new.chunks ≡ empty_alone D.address) }
    ensures address { IfOk result (λ address. address.0 ≡ database_address D.address []) }
    ensures segments { draft.new.segments ≡ draft.old.segments }
    ensures fault { IfErr result (λ fault. fault ≡ PutFault.Memory) }
{
    let database = write_database(alloc, draft, &[])?;
    Ok(database)
}

/// An address has twenty bytes. It does nothing.
fn know_length(_address: Address)
    ensures { length _address.0 ≡ 20 }
{}

/// Puts the first commit, of the database at this address, into a draft that has it alone.
fn put_commit<D: Digester>(
    alloc: Global,
    draft: &mut Draft<D>,
    database: Address,
    epoch: i64,
) -> Result<Address, PutFault>
    requires alone { draft.old.chunks ≡ empty_alone D.address }
    requires address { database.0 ≡ database_address D.address [] }
    requires epoch { pos 0 ≤ℤ epoch }
    ensures both { OnOk result (draft.new.chunks ≡ both_alone D.address epoch) }
    ensures address { IfOk result (λ commit. commit.0 ≡ commit_address D.address (first_commit epoch)) }
    ensures segments { draft.new.segments ≡ draft.old.segments }
    ensures fault { IfErr result (IsOpeningFault D.address epoch) }
{
    let first = first_commit(alloc, database, epoch)?;
    write_commit(alloc, draft, &first)
}

/// The commit of this database with which every history begins.
fn first_commit(alloc: Global, database: Address, epoch: i64) -> Result<CommitRecord, AllocError>
    requires { pos 0 ≤ℤ epoch }
    ensures parts { IfOk result (λ commit. (address : List ℕ → List ℕ) → database.0 ≡ database_address address [] → parts_of commit ≡ commit_parts address (first_commit epoch)) }
    ensures limits { IfOk result (λ commit. KeepsLimits (parts_of commit)) }
{
    Ok(CommitRecord {
        root: database,
        parents: Sequence::new(alloc),
        height: 1,
        date: epoch,
        committer: Text::from_slice(alloc, b"doltrun")?,
        message: Text::from_slice(alloc, b"Initialize data repository")?,
    })
}

/// A store with just the chunks of a draft that has no store below it.
#[tactic(auto, using(crate::proofs::OpeningLemmas::just_sealed, crate::proofs::SegmentLemmas::first_few))]
fn store_of<D: Digester>(alloc: Global, draft: Draft<D>) -> Result<Store, PutFault>
    requires { draft.segments ≡ [] }
    ensures chunks { IfOk result (λ store. HasJust draft.chunks.own (all_chunks store)) }
    ensures few { IfOk result (λ store. AreFew store.segments) }
    ensures fault { IfErr result (λ fault. fault ≡ PutFault.Memory) }
{
    let Ok((segment, _pool)) = draft.seal() else {
        return Err(PutFault::Memory);
    };
    let mut store = Store::new(alloc);
    match store.append(segment) {
        Ok(()) => Ok(store),
        Err(_) => Err(PutFault::Memory),
    }
}

/// Twice as many moments as there are statements, where their number has 32 bits.
pub fn all_moments(statements: &[u32]) -> Option<u32>
    ensures { result ≢ None → result ≡ Some (2 * sum statements.now) }
{
    let mut moments: u32 = 0;
    for number in statements {
        moments = moments.checked_add(number.checked_mul(2)?)?;
    }
    Some(moments)
}
