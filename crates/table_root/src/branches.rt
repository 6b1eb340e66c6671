//! Branch records written into drafts, and read back.

ghost use Rattle.std.specs.Prelude.{◌≡◌, ◌≤◌, ◌++◌, [], ◌∷◌, true, length, OnOk, OnErr, IfOk, IfErr};
ghost use Rattle.std.specs.Option.{option_map};
ghost use Rattle.schema_model.specs.Reading.{address_at};
ghost use Rattle.schema_model.specs.WrittenForms.{branch_bytes, merging_bytes};
ghost use Rattle.chunk_store.specs.Drafts.{Grows, Puts, chunks_of};
ghost use Rattle.chunk_store.specs.Kinds.{is_branch};
ghost use Rattle.table_root.specs.Branches.{HasBranch, IsBranch, IsBranchFound, IsBranchIn, is_address_or_none};
ghost use Rattle.table_root.specs.Reading.{after_kind, branch_of, merging_at};
ghost use Rattle.table_root.specs.Spellings.{Reads};

use crate::fields::push_address;
use chunk_store::{Draft, PutFault, law_of_growth};
use schema_model::FormBytes;
use smallvec::SmallVec;
use std::alloc::{AllocError, Global};
use tuple_codec::{Address, BranchRecord, Digester};

/// Puts the record's written form into the draft: the address is the record's.
pub fn write_branch<D: Digester>(
    alloc: Global,
    draft: &mut Draft<D>,
    branch: &BranchRecord,
) -> Result<Address, PutFault>
    ensures puts { Puts D.address (branch_bytes branch.now) draft.old draft.new result }
    ensures found { IfOk result (λ address. IsBranchFound (chunks_of draft.new.chunks) address.0 branch.now) }
    ensures grows { Grows is_branch draft.old draft.new }
{
    law_of_growth();
    let bytes = branch_bytes(alloc, branch)?;
    draft.put(bytes.as_slice())
}

/// The record's written form.
fn branch_bytes(alloc: Global, branch: &BranchRecord) -> Result<FormBytes, AllocError>
    ensures bytes { IfOk result (λ bytes. bytes.items ≡ branch_bytes branch.now) }
    ensures branch { OnOk result (IsBranch branch.now) }
    ensures size { IfOk result (λ bytes. length bytes.items ≤ 65536) }
{
    let mut out = SmallVec::new(alloc);
    out.push(6)?;
    push_address(&mut out, &branch.head)?;
    push_address(&mut out, &branch.working)?;
    push_address(&mut out, &branch.staged)?;
    push_merging(&mut out, &branch.merging)?;
    Ok(out)
}

/// Writes the commit of a merge in progress, if there is one.
fn push_merging(out: &mut FormBytes, merging: &Option<Address>) -> Result<(), AllocError>
    ensures bytes { OnOk result (out.new.items ≡ out.old.items ++ merging_bytes merging.now) }
    ensures whole { OnOk result (is_address_or_none merging.now ≡ true) }
{
    match merging {
        Some(commit) => {
            out.push(1)?;
            push_address(out, commit)
        }
        None => {
            out.push(0)?;
            Ok(())
        }
    }
}

/// The branch record whose written form is found at the address. It takes no memory.
pub fn read_branch<D: Digester>(draft: &Draft<D>, address: &Address) -> BranchRecord
    requires { HasBranch (chunks_of draft.now.chunks) address.now.0 }
    ensures { IsBranchFound (chunks_of draft.now.chunks) address.now.0 result }
{
    let Some(bytes) = draft.get(address) else {
        unreachable!()
    };
    match read_branch_bytes(bytes) {
        Some(branch) => branch,
        None => unreachable!(),
    }
}

/// The branch record that has these bytes, all of them, or None where none has them: for whoever reads bytes of unknown origin.
pub fn read_branch_bytes(bytes: &[u8]) -> Option<BranchRecord>
    ensures { Reads (IsBranchIn bytes.now) result }
{
    branch_of(bytes)
}

/// The branch record of these bytes, all of them.
#[tactic(auto, unfolding(crate::specs::Reading::branch_of))]
fn branch_of(bytes: &[u8]) -> Option<BranchRecord>
    ensures { result ≡ branch_of bytes.now }
{
    let rest = behind_kind(bytes)?;
    let (head, rest) = address_in(rest)?;
    let (working, rest) = address_in(rest)?;
    let (staged, rest) = address_in(rest)?;
    let (merging, rest) = merging_in(rest)?;
    if rest.is_empty() {
        Some(BranchRecord {
            head,
            working,
            staged,
            merging,
        })
    } else {
        None
    }
}

/// The bytes after the one that tells a branch record from other chunks.
fn behind_kind(bytes: &[u8]) -> Option<&[u8]>
    ensures { option_map (λ rest. rest.now) result ≡ after_kind 6 bytes.now }
{
    match bytes {
        [6, rest @ ..] => Some(rest),
        _ => None,
    }
}

/// The commit of a merge in progress, if there is one, and the bytes after it.
fn merging_in(bytes: &[u8]) -> Option<(Option<Address>, &[u8])>
    ensures { option_map (λ x. (x.0, x.1.now)) result ≡ merging_at bytes.now }
{
    match bytes {
        [0, rest @ ..] => Some((None, rest)),
        [1, rest @ ..] => {
            let (commit, rest) = address_in(rest)?;
            Some((Some(commit), rest))
        }
        _ => None,
    }
}

/// An address, which has 20 bytes, and the bytes after it.
fn address_in(bytes: &[u8]) -> Option<(Address, &[u8])>
    ensures { option_map (λ x. (x.0, x.1.now)) result ≡ address_at bytes.now }
{
    if bytes.len() < 20 {
        return None;
    }
    let (front, rest) = bytes.split_at(20);
    Some((Address::from_slice(front), rest))
}
