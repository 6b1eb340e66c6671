//! Commits written into drafts.

ghost use Rattle.std.specs.Prelude.{◌≡◌, ◌<◌, ◌≤◌, ◌++◌, ◌∷◌, true, length, map, OnOk, IfOk};
ghost use Rattle.std.specs.Int.{w64, cast_unsigned, to_be_bytes};
ghost use Rattle.tuple_codec.specs.RowBytes.{length_prefixed};
ghost use Rattle.std.specs.List.{flat_map, list_all};
ghost use Rattle.schema_model.specs.WrittenForms.{commit_bytes};
ghost use Rattle.chunk_store.specs.Drafts.{Grows, Puts, chunks_of};
ghost use Rattle.chunk_store.specs.Kinds.{is_commit};
ghost use Rattle.commit_graph.specs.Commits.{IsCommit, IsCommitFound, KeepsLimits, is_address, parts_of};

use crate::commits::CommitRecord;
use crate::fields::push_number;
use chunk_store::{Draft, PutFault, law_of_growth};
use std::alloc::{AllocError, Global};
use tuple_codec::{Address, Blob, Digester, Sequence, Text, push_long};

/// Puts the commit's written form into the draft: the address is the commit's.
pub fn write_commit<D: Digester>(
    alloc: Global,
    draft: &mut Draft<D>,
    commit: &CommitRecord,
) -> Result<Address, PutFault>
    requires { KeepsLimits (parts_of commit.now) }
    ensures puts { Puts D.address (commit_bytes (parts_of commit.now)) draft.old draft.new result }
    ensures found { IfOk result (λ address. IsCommitFound (chunks_of draft.new.chunks) address.0 (parts_of commit.now)) }
    ensures grows { Grows is_commit draft.old draft.new }
{
    law_of_growth();
    let bytes = commit_bytes(alloc, commit)?;
    draft.put(bytes.as_slice())
}

/// The commit's written form.
fn commit_bytes(alloc: Global, commit: &CommitRecord) -> Result<Blob, AllocError>
    requires { KeepsLimits (parts_of commit.now) }
    ensures bytes { IfOk result (λ bytes. bytes ≡ commit_bytes (parts_of commit.now)) }
    ensures commit { OnOk result (IsCommit (parts_of commit.now)) }
    ensures size { IfOk result (λ bytes. length bytes ≤ 65536) }
{
    let mut out = Vec::new(alloc);
    out.push(5)?;
    push_links(&mut out, &commit.root, &commit.parents)?;
    let date = date_bits(commit);
    push_numbers(&mut out, commit.height, date)?;
    push_texts(&mut out, &commit.committer, &commit.message)?;
    Ok(Blob::from_vec(out))
}

/// Writes the addresses of the database and of the parents.
fn push_links(
    out: &mut Vec<u8>,
    root: &Address,
    parents: &Sequence<Address>,
) -> Result<(), AllocError>
    requires { length parents.now < 256 }
    ensures bytes { OnOk result (out.new.items ≡ out.old.items ++ (root.now.0 ++ length parents.now ∷ flat_map (λ parent. parent) (map (λ parent. parent.0) parents.now))) }
    ensures root { OnOk result (is_address root.now.0 ≡ true) }
    ensures parents { OnOk result (list_all is_address (map (λ parent. parent.0) parents.now) ≡ true) }
{
    let parents = parents.as_slice();
    push_address(out, root)?;
    out.push(parents.len() as u8)?;
    push_addresses(out, parents)
}

/// Writes height and date.
fn push_numbers(out: &mut Vec<u8>, height: u64, date: u64) -> Result<(), AllocError>
    ensures { OnOk result (out.new.items ≡ out.old.items ++ (to_be_bytes w64 height ++ to_be_bytes w64 date)) }
{
    push_number(out, height)?;
    push_number(out, date)?;
    Ok(())
}

/// The date in two's complement.
fn date_bits(commit: &CommitRecord) -> u64
    ensures { result ≡ cast_unsigned w64 commit.now.date }
{
    let date = commit.date;
    date.cast_unsigned()
}

/// Writes committer and message.
fn push_texts(out: &mut Vec<u8>, committer: &Text, message: &Text) -> Result<(), AllocError>
    requires committer { length committer.now < 65536 }
    requires message { length message.now < 65536 }
    ensures { OnOk result (out.new.items ≡ out.old.items ++ (length_prefixed committer.now ++ length_prefixed message.now)) }
{
    push_long(out, committer.as_slice())?;
    push_long(out, message.as_slice())
}

/// Writes addresses one after another.
fn push_addresses(out: &mut Vec<u8>, addresses: &[Address]) -> Result<(), AllocError>
    ensures bytes { OnOk result (out.new.items ≡ out.old.items ++ flat_map (λ address. address) (map (λ address. address.0) addresses.now)) }
    ensures addresses { OnOk result (list_all is_address (map (λ address. address.0) addresses.now) ≡ true) }
{
    for address in addresses {
        push_address(out, address)?;
    }
    Ok(())
}

/// Writes an address, which has 20 bytes.
fn push_address(out: &mut Vec<u8>, address: &Address) -> Result<(), AllocError>
    ensures bytes { OnOk result (out.new.items ≡ out.old.items ++ address.now.0) }
    ensures address { is_address address.now.0 ≡ true }
{
    let address = *address;
    out.extend_from_slice(&address.0)
}
