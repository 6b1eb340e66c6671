//! Addresses as the keys of a table.

ghost use Rattle.std.specs.Prelude.{◌≡◌, ◌∷◌, [], bytes_eq, take};
ghost use Rattle.std.specs.Cmp.Rules.{comparing, hashing};
ghost use Rattle.std.proofs.Common.{rules};

use std::hash::{Hash, Hasher};
use std::marker::Model;
use tuple_codec::Address;

/// An address where a table looks it up. It is a hash already, so its first eight bytes spread the keys as well as all of them would.
#[derive(Drop)]
pub(crate) struct Key([u8; 20]);

impl Model for Key {
    ghost use Rattle.std.specs.Prelude.{ℕ, List};

    ghost Value = { List ℕ };

    ghost view = { λ k. k.0 };
}

impl Key {
    pub(crate) fn of(address: &Address) -> Key
        ensures { result ≡ address.now.0 }
    {
        Key(address.0)
    }
}

impl PartialEq for Key {
    ghost eq = { bytes_eq };

    ghost laws = { Prim.search (comparing, rules) };

    fn eq(&self, other: &Key) -> bool {
        self.0 == other.0
    }
}

impl Eq for Key {
    ghost laws = { Prim.search (comparing, rules) };
}

impl Hash for Key {
    ghost hash_input = { λ k. take 8 k ∷ [] };

    ghost respects_eq = { Prim.search (hashing, rules) };

    fn hash<H: Hasher>(&self, state: &mut H) {
        state.write(&self.0[..8]);
    }
}
