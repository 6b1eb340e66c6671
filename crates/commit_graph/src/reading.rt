//! Commits read from drafts, and from bytes of any origin.

ghost use Rattle.std.specs.Prelude.{◌≡◌, IfOk};
ghost use Rattle.std.specs.Option.{option_map};
ghost use Rattle.tuple_codec.specs.Fronts.{Gives};
ghost use Rattle.chunk_store.specs.Drafts.{chunks_of};
ghost use Rattle.commit_graph.specs.Commits.{HasCommit, IsCommitFound, IsCommitIn, parts_of};
ghost use Rattle.commit_graph.specs.Reading.{after_kind, commit_at, commit_of, keeps_rules};
ghost use Rattle.table_root.specs.Spellings.{Reads};

use crate::commits::CommitRecord;
use crate::fields::number_at;
use chunk_store::Draft;
use schema_model::{address_at, list_at};
use std::alloc::{AllocError, Global};
use tuple_codec::{Address, Digester, Text, Unread, long_at};

/// The commit whose written form is found at the address.
pub fn read_commit<D: Digester>(
    alloc: Global,
    draft: &Draft<D>,
    address: &Address,
) -> Result<CommitRecord, AllocError>
    requires { HasCommit (chunks_of draft.now.chunks) address.now.0 }
    ensures { IfOk result (λ commit. IsCommitFound (chunks_of draft.now.chunks) address.now.0 (parts_of commit)) }
{
    let Some(bytes) = draft.get(address) else {
        unreachable!()
    };
    match read_commit_bytes(alloc, bytes)? {
        Some(commit) => Ok(commit),
        None => unreachable!(),
    }
}

/// The commit that has these bytes, all of them, or None where none has them: for whoever reads bytes of unknown origin. It may pass
/// the limits on its texts.
pub fn read_commit_bytes(alloc: Global, bytes: &[u8]) -> Result<Option<CommitRecord>, AllocError>
    ensures { IfOk result (λ commit. Reads (IsCommitIn bytes.now) (option_map parts_of commit)) }
{
    match commit_of(alloc, bytes) {
        Ok(commit) => Ok(Some(commit)),
        Err(Unread::Malformed) => Ok(None),
        Err(Unread::Memory) => Err(AllocError),
    }
}

/// The commit of these bytes, all of them.
fn commit_of(alloc: Global, bytes: &[u8]) -> Result<CommitRecord, Unread>
    ensures { Gives parts_of result (commit_of bytes.now) }
{
    let (commit, rest) = commit_at(alloc, bytes)?;
    if rest.is_empty() && keeps_rules(&commit) {
        Ok(commit)
    } else {
        Err(Unread::Malformed)
    }
}

/// Whether the commit has few parents and a date: its bytes alone don't see to that.
#[tactic(auto, using(crate::proofs::CommitLemmas::counted))]
fn keeps_rules(commit: &CommitRecord) -> bool
    ensures { result ≡ keeps_rules (parts_of commit.now) }
{
    commit.parents.as_slice().len() <= 2 && commit.date >= 0
}

/// The parts of a commit at the front of bytes, of which not all rules are known yet.
#[tactic(auto, unfolding(crate::specs::Reading::commit_at))]
fn commit_at(alloc: Global, bytes: &[u8]) -> Result<(CommitRecord, &[u8]), Unread>
    ensures { Gives (λ x. (parts_of x.0, x.1.now)) result (commit_at bytes.now) }
{
    let rest = after_kind(bytes)?;
    let (root, rest) = address_at(rest)?;
    let (parents, rest) = list_at(alloc, rest)?;
    let (height, rest) = number_at(rest)?;
    let (date, rest) = number_at(rest)?;
    let (committer, rest) = long_at(rest)?;
    let (message, rest) = long_at(rest)?;
    let commit = CommitRecord {
        root,
        parents,
        height,
        date: date.cast_signed(),
        committer: Text::from_slice(alloc, committer)?,
        message: Text::from_slice(alloc, message)?,
    };
    Ok((commit, rest))
}

/// The bytes after the one that tells a commit from other chunks.
fn after_kind(bytes: &[u8]) -> Result<&[u8], Unread>
    ensures { Gives (λ rest. rest.now) result (after_kind bytes.now) }
{
    match bytes {
        [5, rest @ ..] => Ok(rest),
        _ => Err(Unread::Malformed),
    }
}
