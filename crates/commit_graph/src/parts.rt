//! Single parts of commits, read without taking memory.

ghost use Rattle.std.specs.Prelude.{◌≡◌};
ghost use Rattle.std.specs.Option.{option_map};
ghost use Rattle.tuple_codec.specs.Fields.{bytes_at};
ghost use Rattle.schema_model.specs.WrittenForms.{CommitParts};
ghost use Rattle.chunk_store.specs.Chunks.{chunk_bytes as found_at};
ghost use Rattle.chunk_store.specs.Drafts.{chunks_of};
ghost use Rattle.chunk_store.specs.Stores.{all_chunks};
ghost use Rattle.commit_graph.specs.Commits.{HasCommit, IsCommitFound, is_commit_found};
ghost use Rattle.commit_graph.specs.Reading.{after_kind, after_parents, height_in, number_at, root_in};

use chunk_store::{Draft, Store};
use tuple_codec::{Address, Digester};

/// Whether the store has a commit's chunk at the address, by its first byte.
pub fn is_commit(store: &Store, address: &Address) -> bool
    ensures { result ≡ is_commit_found (found_at (all_chunks store.now) address.now.0) }
{
    matches!(store.get(address), Some([5, ..]))
}

/// The address of the database of the commit that is found at the address.
pub fn root_of(store: &Store, address: &Address) -> Address
    requires { HasCommit (found_at (all_chunks store.now)) address.now.0 }
    ensures { (commit : CommitParts) → IsCommitFound (found_at (all_chunks store.now)) address.now.0 commit → result.0 ≡ commit.root }
{
    let Some(bytes) = store.get(address) else {
        unreachable!()
    };
    match root_in(bytes) {
        Some(root) => root,
        None => unreachable!(),
    }
}

/// The height of the commit that is found at the address.
pub fn height<D: Digester>(draft: &Draft<D>, address: &Address) -> u64
    requires { HasCommit (chunks_of draft.now.chunks) address.now.0 }
    ensures { (commit : CommitParts) → IsCommitFound (chunks_of draft.now.chunks) address.now.0 commit → result ≡ commit.height }
{
    let Some(bytes) = draft.get(address) else {
        unreachable!()
    };
    match height_in(bytes) {
        Some(height) => height,
        None => unreachable!(),
    }
}

#[tactic(auto, unfolding(crate::specs::Reading::root_in))]
fn root_in(bytes: &[u8]) -> Option<Address>
    ensures { option_map (λ root. root.0) result ≡ root_in bytes.now }
{
    let rest = behind_kind(bytes)?;
    let (root, _) = front_of(20, rest)?;
    Some(Address::from_slice(root))
}

#[tactic(auto, unfolding(crate::specs::Reading::height_in))]
fn height_in(bytes: &[u8]) -> Option<u64>
    ensures { result ≡ height_in bytes.now }
{
    let rest = behind_kind(bytes)?;
    let (_, rest) = front_of(20, rest)?;
    let rest = behind_parents(rest)?;
    number_in(rest)
}

/// The bytes after the one that tells a commit from other chunks.
fn behind_kind(bytes: &[u8]) -> Option<&[u8]>
    ensures { option_map (λ rest. rest.now) result ≡ after_kind bytes.now }
{
    match bytes {
        [5, rest @ ..] => Some(rest),
        _ => None,
    }
}

/// The bytes after a count in one byte and that many addresses.
fn behind_parents(bytes: &[u8]) -> Option<&[u8]>
    ensures { option_map (λ rest. rest.now) result ≡ after_parents bytes.now }
{
    match bytes {
        [count, rest @ ..] => {
            let (_, rest) = front_of(20 * usize::from(*count), rest)?;
            Some(rest)
        }
        [] => None,
    }
}

/// So many bytes, and those after them.
fn front_of(count: usize, bytes: &[u8]) -> Option<(&[u8], &[u8])>
    ensures { option_map (λ x. (x.0.now, x.1.now)) result ≡ bytes_at count bytes.now }
{
    if bytes.len() < count {
        return None;
    }
    Some(bytes.split_at(count))
}

/// The number in the first eight bytes.
fn number_in(bytes: &[u8]) -> Option<u64>
    ensures { result ≡ option_map (λ x. x.0) (number_at bytes.now) }
{
    match bytes {
        [a, b, c, d, e, f, g, h, ..] => {
            Some(u64::from_be_bytes([*a, *b, *c, *d, *e, *f, *g, *h]))
        }
        _ => None,
    }
}
