//! Where a DOLT_MERGE of a name leads.

ghost use Rattle.std.specs.Prelude.{◌≡◌, ℕ, IfOk, List, Some, map, true};
ghost use Rattle.std.specs.Option.{option_map};
ghost use Rattle.chunk_store.specs.Chunks.{Chunks, chunk_bytes};
ghost use Rattle.chunk_store.specs.Drafts.{chunks_of};
ghost use Rattle.commit_graph.specs.Commits.{is_commit_found};
ghost use Rattle.table_root.specs.Kept.{IsKeptAt};
ghost use Rattle.plain_sessions.specs.Branching.{commit_named, resolved};
ghost use Rattle.plain_sessions.specs.Records.{BranchState};
ghost use Rattle.plain_sessions.specs.Sessions as plain;
ghost use Rattle.schema_model.specs.PlainCommits.{Commits, is_known};
ghost use Rattle.schema_model.specs.PlainTables.{PlainDatabase};
ghost use Rattle.session_state.specs.Commits.{CommitsAreThere};
ghost use Rattle.session_state.specs.Records.{RecordStands};
ghost use Rattle.session_state.specs.Transactions.{head_seen};
ghost use Rattle.session_state.specs.Standing.{IsInTransaction, SessionStands};
ghost use Rattle.tuple_codec.specs.AddressTexts.{IsAddress};
ghost use Rattle.merge_procs.specs.Ways.{AreDatabases, IsOver, IsWay, Leads, head_at, is_changed};

use chunk_store::{Draft, law_of_chunks};
use commit_graph::law_of_standing_commits;
use merge_base::merge_base;
use schema_model::{law_of_ancestors, law_of_sameness};
use session_plan::head_root;
use session_state::Session;
use sql_procedures::MergeOf;
use std::alloc::{AllocError, Global};
use table_root::{BranchHead, law_of_databases};
use tuple_codec::{Address, BranchRecord, Digester};

/// Three databases to merge, and the commit that is merged.
#[derive(Clone, Copy)]
pub(crate) struct Three {
    pub base: Address,
    pub ours: Address,
    pub theirs: Address,
    pub other: Address,
}

/// Where a merge leads.
#[derive(Drop)]
pub(crate) enum Way {
    Refused(u16),
    UpToDate,
    /// A fast-forward to the commit.
    Forward(Address),
    Merge(Three),
}

// ---- the name

/// The head of the branch of this name.
fn head_at(heads: &[BranchHead], name: &[u8]) -> Option<Address>
    ensures { option_map (λ k. k.0) result ≡ head_at name.now (map head_seen heads.now) }
{
    for head in heads {
        if head.branch.bytes() == name {
            return Some(head.head);
        }
    }
    None
}

/// Whether the draft has a commit's chunk at the address, by its first byte.
fn is_commit<D: Digester>(draft: &Draft<D>, address: &Address) -> bool
    ensures { result ≡ is_commit_found (chunks_of draft.now.chunks address.now.0) }
{
    matches!(draft.get(address), Some([5, ..]))
}

/// An address has twenty bytes. It does nothing.
fn know_bytes(_address: Address)
    ensures { IsAddress _address.0 }
{}

/// The commit of the address that has the name as its text.
fn commit_named<D: Digester>(draft: &Draft<D>, name: &[u8]) -> Option<Address>
    ensures { (commits : Commits) → CommitsAreThere D.address (chunks_of draft.now.chunks) commits
        → option_map (λ k. k.0) result ≡ commit_named commits name.now }
{
    let address = Address::read(name)?;
    know_bytes(address);
    if is_commit(draft, &address) {
        Some(address)
    } else {
        None
    }
}

/// The commit that a name tells: the head of the branch of that name, and else the commit that has it as its address's text.
fn commit_at<D: Digester>(heads: &[BranchHead], draft: &Draft<D>, name: &[u8]) -> Option<Address>
    ensures { (commits : Commits) → CommitsAreThere D.address (chunks_of draft.now.chunks) commits
        → option_map (λ k. k.0) result ≡ resolved (map head_seen heads.now) commits name.now }
{
    match head_at(heads, name) {
        Some(head) => Some(head),
        None => commit_named(draft, name),
    }
}

// ---- changes

/// Whether there are changes that aren't committed, or a merge is in progress.
fn has_changes(own: &BranchRecord, root: &Address) -> bool
    ensures { (address : List ℕ → List ℕ) (chunks : Chunks) (commits : Commits) (state : BranchState) (database : PlainDatabase) → RecordStands address chunks commits own.now state
        → IsKeptAt address chunks root.now.0 database → result ≡ is_changed state database }
{
    law_of_databases();
    law_of_sameness();
    own.working != *root || own.staged != *root || own.merging.is_some()
}

// ---- where it leads

/// The databases of the base, of the head and of the other commit.
fn databases<D: Digester>(
    alloc: Global,
    draft: &Draft<D>,
    base: &Address,
    ours: &Address,
    other: &Address,
) -> Result<Three, AllocError>
    requires { (commits : Commits) × CommitsAreThere D.address (chunk_bytes draft.now.chunks.base) commits × (is_known commits base.now.0 ≡ true) × (is_known commits other.now.0 ≡ true) }
    ensures { (commits : Commits) → CommitsAreThere D.address (chunk_bytes draft.now.chunks.base) commits → is_known commits base.now.0 ≡ true → is_known commits other.now.0 ≡ true
        → IfOk result (AreDatabases D.address (chunks_of draft.now.chunks) commits base.now ours.now other.now) }
{
    let base = head_root(alloc, draft, base)?;
    let theirs = head_root(alloc, draft, other)?;
    Ok(Three {
        base,
        ours: *ours,
        theirs,
        other: *other,
    })
}

/// Where a merge of the other commit into the head leads.
fn way_to<D: Digester>(
    alloc: Global,
    draft: &Draft<D>,
    head: &Address,
    root: &Address,
    other: &Address,
    no_ff: bool,
) -> Result<Way, AllocError>
    requires { (t : plain.Transaction) × IsOver D.address draft.now.chunks head.now root.now other.now t }
    ensures { (t : plain.Transaction) → IsOver D.address draft.now.chunks head.now root.now other.now t
        → IfOk result (Leads D.address (chunks_of draft.now.chunks) t no_ff other.now) }
{
    law_of_ancestors();
    law_of_chunks();
    law_of_standing_commits();
    let base = merge_base(alloc, draft, head, other)?;
    if base == *other {
        return Ok(Way::UpToDate);
    }
    if base == *head && !no_ff {
        return Ok(Way::Forward(*other));
    }
    let three = databases(alloc, draft, &base, root, other)?;
    Ok(Way::Merge(three))
}

/// Finds the commit of the name and the base, and tells where the merge leads. No table is read.
pub(crate) fn find_way<D: Digester>(
    alloc: Global,
    session: &Session<D>,
    request: &MergeOf,
) -> Result<Way, AllocError>
    requires { IsInTransaction D.address session.now }
    ensures { (p : plain.Session) (t : plain.Transaction) → SessionStands D.address session.now p → p.transaction ≡ Some t
        → IfOk result (λ way. IsWay D.address (chunks_of session.now.draft.chunks) t request.now way) }
{
    session_state::law_of_standing_commits();
    let Some(look) = &session.start else {
        unreachable!()
    };
    let draft = &session.draft;
    let Some(other) = commit_at(look.heads.as_slice(), draft, request.name.as_slice()) else {
        return Ok(Way::Refused(9004));
    };
    let root = head_root(alloc, draft, &session.own.head)?;
    if has_changes(&session.own, &root) {
        return Ok(Way::Refused(9006));
    }
    way_to(
        alloc,
        draft,
        &session.own.head,
        &root,
        &other,
        request.no_ff,
    )
}
