//! The commit that a decision makes.

ghost use Rattle.std.specs.Prelude.{◌≡◌, ◌≤◌, ◌≤ℤ◌, ◌∷◌, [], length, map, pos, IfOk};
ghost use Rattle.std.specs.Option.{option_to_list};
ghost use Rattle.commit_graph.specs.Commits.{KeepsLimits, parts_of};
ghost use Rattle.root_merge.specs.States.{bytes_of};
ghost use Rattle.schema_model.specs.PlainCommits.{Commits, commit_parts, greatest, height_of};
ghost use Rattle.plain_sessions.specs.Records.{BranchState, commit_on};
ghost use Rattle.session_plan.specs.Committing.{CanCommit, parents_on};

use chunk_store::{Draft, law_of_chunks};
use commit_graph::{CommitRecord, height, law_of_standing_commits};
use std::alloc::{AllocError, Global};
use tuple_codec::{Address, BranchRecord, Digester, Sequence, Text};

/// The greatest height of the commits on which a commit of this record is made.
fn greatest_height<D: Digester>(draft: &Draft<D>, rec: &BranchRecord, present: &Address) -> u64
    requires { (commits : Commits) × (state : BranchState) × CanCommit D.address draft.now.chunks rec.now present.now commits state }
    ensures { (commits : Commits) (state : BranchState) → CanCommit D.address draft.now.chunks rec.now present.now commits state
        → result ≡ greatest (map (height_of commits) (parents_on present.now state)) }
{
    law_of_chunks();
    law_of_standing_commits();
    let first = height(draft, present);
    match rec.merging {
        None => first,
        Some(other) => {
            let second = height(draft, &other);
            greater(first, second)
        }
    }
}

fn greater(first: u64, second: u64) -> u64
    ensures { result ≡ greatest (first ∷ second ∷ []) }
{
    if second < first { first } else { second }
}

/// The commits on which a commit of this record is made.
fn parents_of(
    alloc: Global,
    rec: &BranchRecord,
    present: &Address,
) -> Result<Sequence<Address>, AllocError>
    ensures is { IfOk result (λ made. map (λ k. k.0) made ≡ present.now.0 ∷ option_to_list (bytes_of rec.now.merging)) }
    ensures few { IfOk result (λ made. length made ≤ 2) }
{
    let mut parents = Sequence::new(alloc);
    parents.push(*present)?;
    match rec.merging {
        None => Ok(parents),
        Some(other) => {
            parents.push(other)?;
            Ok(parents)
        }
    }
}

/// A commit of the record's staged database, on the branch's head and on the commit that is being merged. A height that is no number in 64 bits is
/// want of memory.
pub(crate) fn new_commit<D: Digester>(
    alloc: Global,
    draft: &Draft<D>,
    rec: &BranchRecord,
    present: &Address,
    committer: &Text,
    message: &Text,
    epoch: i64,
) -> Result<CommitRecord, AllocError>
    requires can { (commits : Commits) × (state : BranchState) × CanCommit D.address draft.now.chunks rec.now present.now commits state }
    requires committer { length committer.now ≤ 32 }
    requires date { pos 0 ≤ℤ epoch }
    requires message { length message.now ≤ 8192 }
    ensures made { (commits : Commits) (state : BranchState) → CanCommit D.address draft.now.chunks rec.now present.now commits state
        → IfOk result (λ made. parts_of made ≡ commit_parts D.address (commit_on commits epoch committer.now state.staged (parents_on present.now state) message.now)) }
    ensures limits { IfOk result (λ made. KeepsLimits (parts_of made)) }
{
    let greatest = greatest_height(draft, rec, present);
    if greatest == u64::MAX {
        return Err(AllocError);
    }
    let parents = parents_of(alloc, rec, present)?;
    let committer = Text::from_slice(alloc, committer.as_slice())?;
    let message = Text::from_slice(alloc, message.as_slice())?;
    Ok(CommitRecord {
        root: rec.staged,
        parents,
        height: greatest + 1,
        date: epoch,
        committer,
        message,
    })
}
