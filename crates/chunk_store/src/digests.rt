//! Addresses by SHA-512.

ghost use Rattle.std.specs.Prelude.{◌≡◌, take};

use sha2::{Digest, Sha512};
use tuple_codec::{Address, Digester};

/// Names bytes by the first 20 bytes of their SHA-512.
#[derive(Clone, Copy)]
pub struct Sha512Cut;

impl Digester for Sha512Cut {
    ghost use Rattle.chunk_store.specs.Digests.{cut_address};

    ghost address = { cut_address };

    fn address_of(bytes: &[u8]) -> Address {
        let digest = Sha512::digest(bytes);
        first_twenty(&digest)
    }
}

/// The address that a digest begins with.
fn first_twenty(digest: &[u8; 64]) -> Address
    ensures { result.0 ≡ take 20 digest.now }
{
    let mut address = [0; 20];
    address.copy_from_slice(&digest[..20]);
    Address(address)
}
