//! A conflict's bytes, taken apart.

ghost use Rattle.std.specs.Prelude.{◌≡◌, IfOk, Some};
ghost use Rattle.tuple_codec.specs.Fronts.{Gives};
ghost use Rattle.conflict_tables.specs.Conflicts.{IsConflictAt, entry_of, row_at, side_at};
ghost use Rattle.conflict_tables.specs.declared.entries.ConflictEntry.{ConflictEntry};

use std::alloc::{AllocError, Global};
use tuple_codec::{Blob, Unread, long_at};

/// A key at which a merge found no row: the bytes of each side's row there, none being absence.
#[derive(Drop)]
pub struct ConflictEntry {
    /// The bytes of the primary key.
    pub key: Blob,
    /// The bytes of the row's other cells, as those of `ours` and `theirs`.
    pub base: Option<Blob>,
    pub ours: Option<Blob>,
    pub theirs: Option<Blob>,
}

pub(crate) fn copy_bytes(alloc: Global, bytes: &[u8]) -> Result<Blob, AllocError>
    ensures { IfOk result (λ copy. copy ≡ bytes.now) }
{
    Ok(Blob::from_vec(Vec::from_slice(alloc, bytes)?))
}

/// A side of a conflict, and the bytes after it.
fn side_at(alloc: Global, bytes: &[u8]) -> Result<(Option<Blob>, &[u8]), Unread>
    ensures { Gives (λ x. (x.0, x.1.now)) result (side_at bytes.now) }
{
    match bytes {
        [0, rest @ ..] => Ok((None, rest)),
        [1, rest @ ..] => row_at(alloc, rest),
        _ => Err(Unread::Malformed),
    }
}

/// A row behind its length, and the bytes after it.
fn row_at(alloc: Global, bytes: &[u8]) -> Result<(Option<Blob>, &[u8]), Unread>
    ensures { Gives (λ x. (x.0, x.1.now)) result (row_at bytes.now) }
{
    let (row, rest) = long_at(bytes)?;
    Ok((Some(copy_bytes(alloc, row)?), rest))
}

/// The conflict of this key whose sides these bytes are.
#[tactic(auto, unfolding(crate::specs::Conflicts::entry_of))]
fn entry_of(alloc: Global, key: &[u8], bytes: &[u8]) -> Result<ConflictEntry, Unread>
    ensures { Gives (λ entry. entry) result (entry_of key.now bytes.now) }
{
    let (base, rest) = side_at(alloc, bytes)?;
    let (ours, rest) = side_at(alloc, rest)?;
    let (theirs, _) = side_at(alloc, rest)?;
    let key = copy_bytes(alloc, key)?;
    Ok(ConflictEntry {
        key,
        base,
        ours,
        theirs,
    })
}

/// The conflict that an item of a table's tree keeps.
pub(crate) fn read_entry(
    alloc: Global,
    key: &[u8],
    bytes: &[u8],
) -> Result<ConflictEntry, AllocError>
    requires { IsConflictAt key.now bytes.now }
    ensures { (entry : ConflictEntry) → entry_of key.now bytes.now ≡ Some entry → IfOk result (λ read. read ≡ entry) }
{
    match entry_of(alloc, key, bytes) {
        Ok(entry) => Ok(entry),
        Err(Unread::Memory) => Err(AllocError),
        Err(Unread::Malformed) => unreachable!(),
    }
}
