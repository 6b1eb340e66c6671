//! The parts of a step on the list of branches, over the vectors and the store.

ghost use Rattle.std.specs.Prelude.{◌≡◌, ◌≢◌, ◌<◌, ◌≤◌, ℕ, List, Bool, true, not, filter, length, map, set, slice_get, is_some, None, Some, bytes_eq, vec_len};
ghost use Rattle.std.specs.List.{list_any};
ghost use Rattle.std.specs.Option.{option_map};
ghost use Rattle.std.specs.Ordering.{is_lt, nat_cmp};
ghost use Rattle.std.specs.Cmp.Lexicographic.{slice_cmp};
ghost use Rattle.std.specs.Vec.{vec_capacity};
ghost use Rattle.chunk_store.specs.Chunks.{chunk_bytes};
ghost use Rattle.chunk_store.specs.Stores.{all_chunks};
ghost use Rattle.commit_graph.specs.Commits.{HasCommit};
ghost use Rattle.plain_sessions.specs.Branching.{commit_named};
ghost use Rattle.plain_sessions.specs.Records.{clean_at, root_of};
ghost use Rattle.plain_sql.specs.Lists.{placed};
ghost use Rattle.schema_model.specs.Limits.{most_branches};
ghost use Rattle.schema_model.specs.PlainCommits.{Commits, is_known};
ghost use Rattle.session_state.specs.Commits.{CommitsAreThere};
ghost use Rattle.session_state.specs.Records.{RecordStands};
ghost use Rattle.shared_db.specs.Members.{line_of, lines_of, numbers_of, places_of};
ghost use Rattle.shared_db.specs.Shared.{record_at};
ghost use Rattle.shared_db.specs.Stepping.{commit_at, is_used, line_cmp, making, place_before, removing, without_line};
ghost use Rattle.shared_db.specs.declared.changes.BranchReply.TheVariants as reply;
ghost use Rattle.table_root.specs.Names.{is_branch_name};
ghost use Rattle.tuple_codec.specs.AddressTexts.{IsAddress};

use crate::branches::{Member, NamedBranch, record_of};
use crate::changes::BranchReply;
use chunk_store::Store;
use commit_graph::{is_commit, root_of};
use table_root::BranchName;
use tuple_codec::{Address, BranchRecord};

/// How many branches there are at most.
const MOST: usize = 1024;

// ---- points

/// The commit that a name tells: the head of the branch of that name, and else the commit that has it as its address's text.
pub fn commit_at(branches: &[NamedBranch], store: &Store, name: &BranchName) -> Option<Address>
    ensures { (address : List ℕ → List ℕ) (commits : Commits) → CommitsAreThere address (chunk_bytes (all_chunks store.now)) commits
        → option_map (λ k. k.0) result ≡ commit_at commits name.now (lines_of branches.now) }
{
    match record_of(branches, name) {
        Some(rec) => Some(rec.head),
        None => commit_named(store, name),
    }
}

/// The commit of the address that has the name as its text.
fn commit_named(store: &Store, name: &BranchName) -> Option<Address>
    ensures { (address : List ℕ → List ℕ) (commits : Commits) → CommitsAreThere address (chunk_bytes (all_chunks store.now)) commits
        → option_map (λ k. k.0) result ≡ commit_named commits name.now }
{
    let address = Address::read(name.bytes())?;
    know_bytes(address);
    if is_commit(store, &address) {
        Some(address)
    } else {
        None
    }
}

/// An address has twenty bytes. It does nothing.
fn know_bytes(_address: Address)
    ensures { IsAddress _address.0 }
{}

/// The record of a branch at the commit, on which nothing has changed.
pub fn clean_at(store: &Store, commit: Address) -> BranchRecord
    requires { HasCommit (chunk_bytes (all_chunks store.now)) commit.0 }
    ensures { (address : List ℕ → List ℕ) (commits : Commits) → CommitsAreThere address (chunk_bytes (all_chunks store.now)) commits → is_known commits commit.0 ≡ true
        → RecordStands address (chunk_bytes (all_chunks store.now)) commits result (clean_at commit.0 (root_of commits commit.0)) }
{
    let root = root_of(store, &commit);
    BranchRecord {
        head: commit,
        working: root,
        staged: root,
        merging: None,
    }
}

// ---- branches

/// Whether there is a branch of this name.
pub fn is_there(branches: &[NamedBranch], name: &BranchName) -> bool
    ensures { result ≡ is_some (record_at name.now (lines_of branches.now)) }
{
    record_of(branches, name).is_some()
}

/// Makes a branch, unless there is one of its name or there are too many.
pub fn make_branch(
    branches: &mut Vec<NamedBranch>,
    name: &BranchName,
    rec: BranchRecord,
) -> BranchReply
    requires { most_branches ≤ vec_capacity branches.old }
    ensures reply { result ≡ making name.now (lines_of branches.old.items) }
    ensures done { result ≡ reply.Done → lines_of branches.new.items ≡ placed line_cmp (lines_of branches.old.items) (record { name = name.now; rec = rec }) }
    ensures same { result ≢ reply.Done → lines_of branches.new.items ≡ lines_of branches.old.items }
    ensures capacity { vec_capacity branches.old ≤ vec_capacity branches.new }
    ensures form { is_branch_name name.now ≡ true }
{
    know_form(name);
    if is_there(branches.as_slice(), name) {
        return BranchReply::Exists;
    }
    if branches.len() >= MOST {
        return BranchReply::Full;
    }
    put_branch(branches, NamedBranch { name: *name, rec });
    BranchReply::Done
}

/// A name has a name's form. It does nothing.
fn know_form(name: &BranchName)
    ensures { is_branch_name name.now ≡ true }
{
    name.bytes();
}

/// Puts a branch in its place among those whose names rise, in room that is there.
fn put_branch(branches: &mut Vec<NamedBranch>, branch: NamedBranch)
    requires { vec_len branches.old < vec_capacity branches.old }
    ensures lines { lines_of branches.new.items ≡ placed line_cmp (lines_of branches.old.items) (line_of branch) }
    ensures capacity { vec_capacity branches.old ≤ vec_capacity branches.new }
{
    let place = place_of(branches.as_slice(), &branch.name);
    if branches.insert(place, branch).is_err() {
        unreachable!()
    }
}

/// How many branches stand before the first of a greater name.
fn place_of(branches: &[NamedBranch], name: &BranchName) -> usize
    ensures { result ≡ place_before name.now (lines_of branches.now) }
{
    let mut place = 0;
    for branch in branches {
        if comes_before(name, &branch.name) {
            return place;
        }
        place += 1;
    }
    place
}

fn comes_before(name: &BranchName, other: &BranchName) -> bool
    ensures { result ≡ is_lt (slice_cmp nat_cmp name.now other.now) }
{
    name.bytes().cmp(other.bytes()).is_lt()
}

/// Removes the branch of this name, unless there is none or a session is on it.
pub fn remove_branch(
    branches: &mut Vec<NamedBranch>,
    members: &[Member],
    name: &BranchName,
) -> BranchReply
    ensures reply { result ≡ removing name.now (lines_of branches.old.items) (places_of members.now) }
    ensures done { result ≡ reply.Done → lines_of branches.new.items ≡ without_line name.now (lines_of branches.old.items) }
    ensures same { result ≢ reply.Done → lines_of branches.new.items ≡ lines_of branches.old.items }
    ensures capacity { vec_capacity branches.new ≡ vec_capacity branches.old }
{
    if !is_there(branches.as_slice(), name) {
        return BranchReply::NoSuch;
    }
    if is_used(members, name) {
        return BranchReply::CheckedOut;
    }
    drop_branch(branches, name);
    BranchReply::Done
}

/// Whether a session is on the branch.
fn is_used(members: &[Member], name: &BranchName) -> bool
    ensures { result ≡ is_used name.now (places_of members.now) }
{
    for member in members {
        if *name == member.branch {
            return true;
        }
    }
    false
}

fn drop_branch(branches: &mut Vec<NamedBranch>, name: &BranchName)
    ensures lines { lines_of branches.new.items ≡ without_line name.now (lines_of branches.old.items) }
    ensures capacity { vec_capacity branches.new ≡ vec_capacity branches.old }
{
    branches.retain(|branch| branch.name != *name);
}

// ---- places

/// The branch on which the session is.
pub fn place_in(members: &[Member], session: u32) -> BranchName
    requires { slice_get (places_of members.now) session ≢ None }
    ensures { slice_get (places_of members.now) session ≡ Some result }
{
    members[session as usize].branch
}

/// Sets the session on a branch.
pub fn move_to(members: &mut Vec<Member>, session: u32, name: &BranchName)
    requires { slice_get (places_of members.old.items) session ≢ None }
    ensures places { places_of members.new.items ≡ set (places_of members.old.items) session name.now }
    ensures numbers { numbers_of members.new.items ≡ numbers_of members.old.items }
{
    let at = session as usize;
    members[at] = Member {
        branch: *name,
        statements: members[at].statements,
    };
}
