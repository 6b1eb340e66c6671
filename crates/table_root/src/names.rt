//! A branch's name, held in place.

ghost use Rattle.std.specs.Prelude.{◌≡◌, ◌≤◌, true, length};
ghost use Rattle.std.specs.List.{list_all};
ghost use Rattle.table_root.specs.Names.{begins_well, is_branch_name, is_name_byte, name_of};

use std::marker::Model;

/// How many bytes a branch's name has at most.
const MOST: usize = 64;

/// A branch's name: 1 to 64 ASCII letters, digits, `_`, `-`, `.` and `/`, which don't begin with `-`. It is held in
/// place, so that it is copied without memory. A contract sees its bytes.
#[derive(Clone, Copy)]
pub struct BranchName {
    /// The name's bytes, and zeros after them.
    held: [u8; MOST],
    size: u8,
}

impl Model for BranchName {
    ghost use Rattle.std.specs.Prelude.{ℕ, List, length, take};
    ghost use Rattle.table_root.specs.Names.{IsPaddedName, padded};

    ghost Value = { List ℕ };

    ghost view = { λ name. take name.size name.held };

    ghost invariant = { λ name. IsPaddedName name.held name.size };

    ghost inverse = { λ bytes. record { held = padded bytes; size = length bytes } };

    ghost inverse_ok = { λ name kept i. record { held = kept.padded i; size = kept.counted i } };
}

impl BranchName {
    /// The name that has these bytes, or None where they haven't a name's form.
    #[tactic(auto, using(crate::proofs::NameLemmas::few_bytes))]
    pub fn read(bytes: &[u8]) -> Option<BranchName>
        ensures { result ≡ name_of bytes.now }
    {
        if is_branch_name(bytes) {
            Some(held_name(bytes))
        } else {
            None
        }
    }

    /// The name as it is written.
    pub fn bytes(&self) -> &[u8]
        ensures bytes { result.now ≡ self.now }
        ensures form { is_branch_name self.now ≡ true }
    {
        &self.held[..usize::from(self.size)]
    }
}

/// The name with these bytes.
fn held_name(bytes: &[u8]) -> BranchName
    requires few { length bytes.now ≤ 64 }
    requires name { is_branch_name bytes.now ≡ true }
    ensures { result ≡ bytes.now }
{
    let mut held = [0; MOST];
    held[..bytes.len()].copy_from_slice(bytes);
    BranchName {
        held,
        size: bytes.len() as u8,
    }
}

/// A name, for places that hold one before they are used.
pub(crate) fn shortest_name() -> BranchName {
    held_name(b"a")
}

/// Whether these bytes have a name's form.
fn is_branch_name(bytes: &[u8]) -> bool
    ensures { result ≡ is_branch_name bytes.now }
{
    begins_well(bytes) && bytes.len() <= MOST && has_name_bytes(bytes)
}

/// Whether a name may have each of the bytes.
fn has_name_bytes(bytes: &[u8]) -> bool
    ensures { result ≡ list_all is_name_byte bytes.now }
{
    bytes.iter().all(|byte| is_name_byte(*byte))
}

/// Whether the first byte is another than `-`.
fn begins_well(bytes: &[u8]) -> bool
    ensures { result ≡ begins_well bytes.now }
{
    match bytes {
        [first, ..] => *first != b'-',
        [] => false,
    }
}

/// Whether a name may have this byte.
fn is_name_byte(byte: u8) -> bool
    ensures { result ≡ is_name_byte byte }
{
    byte.is_ascii_alphanumeric() || byte == b'_' || byte == b'-' || byte == b'.' || byte == b'/'
}

impl PartialEq for BranchName {
    ghost use Rattle.std.specs.Prelude.{bytes_eq};
    ghost use Rattle.std.proofs.Common.{rules};
    ghost use Rattle.std.specs.Cmp.Rules.{comparing};

    ghost eq = { bytes_eq };

    ghost laws = { Prim.search (comparing, rules) };

    fn eq(&self, other: &BranchName) -> bool {
        self.bytes() == other.bytes()
    }
}

impl Eq for BranchName {
    ghost use Rattle.std.proofs.Common.{rules};
    ghost use Rattle.std.specs.Cmp.Rules.{comparing};

    ghost laws = { Prim.search (comparing, rules) };
}
