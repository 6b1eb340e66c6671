//! Addresses of chunks, and the ways to name byte strings by them.

ghost use Rattle.std.specs.Prelude.{◌≡◌, ℕ, List, length};

/// A chunk's name: the first 20 bytes of its digest.
#[derive(Clone, Copy, Debug, PartialEq, Eq)]
pub struct Address(pub [u8; 20]);

impl Address {
    /// The address of these 20 bytes.
    pub fn from_slice(bytes: &[u8]) -> Address
        requires { length bytes.now ≡ 20 }
        ensures { result.0 ≡ bytes.now }
    {
        let mut address = [0; 20];
        address.copy_from_slice(bytes);
        Address(address)
    }
}

/// A way to name byte strings. Two strings of one address are a collision, which callers find and report.
pub trait Digester: Send + Sync {
    /// The address of a byte string, as 20 bytes.
    ghost address: { List ℕ → List ℕ };

    /// The name of these bytes.
    fn address_of(bytes: &[u8]) -> Address
        ensures { result.0 ≡ address bytes.now };
}
