//! Chunks put into a draft, and keys kept of them.

ghost use Rattle.std.specs.Prelude.{◌≡◌, ◌≤◌, [], ◌∷◌, true, length, IfOk, IfErr, OnOk};
ghost use Rattle.chunk_store.specs.Drafts.{Grows, chunks_of};
ghost use Rattle.chunk_store.specs.Kinds.{is_node};
ghost use Rattle.chunk_store.specs.Standing.{AreHeld};
ghost use Rattle.chunk_store.specs.Clashes.{IsReason};

use chunk_store::{Draft, PutFault};
use std::alloc::AllocError;
use std::mem;
use tuple_codec::{Address, Blob, Digester};

/// Puts a node's bytes into the draft; their address.
pub(crate) fn put_chunk<D: Digester>(
    draft: &mut Draft<D>,
    bytes: &[u8],
) -> Result<Address, PutFault>
    requires small { length bytes.now ≤ 65536 }
    requires node { is_node bytes.now ≡ true }
    ensures address { IfOk result (λ address. address.0 ≡ D.address bytes.now) }
    ensures put { OnOk result (AreHeld D.address (chunks_of draft.new.chunks) (bytes.now ∷ [])) }
    ensures grows { Grows is_node draft.old draft.new }
    ensures cause { IfErr result (IsReason D.address (chunks_of draft.new.chunks)) }
{
    draft.put(bytes)
}

/// A copy of a key, in room that an earlier one had: so the names of nodes, which come one after another, have their keys in memory
/// that is taken once. The room is left without memory, until the copy's is given back to it ([`Blob::into_vec`]).
pub fn copied_into(room: &mut Vec<u8>, key: &[u8]) -> Result<Blob, AllocError>
    ensures copy { IfOk result (λ copy. copy ≡ key.now) }
    ensures left { room.new.items ≡ [] }
{
    let none = Vec::new(*room.allocator());
    let mut copy = mem::replace(room, none);
    copy.clear();
    copy.extend_from_slice(key)?;
    Ok(Blob::from_vec(copy))
}
