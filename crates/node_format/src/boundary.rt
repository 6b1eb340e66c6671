//! Where a node ends.

ghost use Rattle.std.specs.Prelude.{◌≡◌, ◌+◌, ◌≤◌, ◌∷◌, ℕ, List, false, length, take};
ghost use Rattle.std.specs.Int.{w32, from_be_bytes};
ghost use Rattle.tuple_codec.specs.Nodes.{ends};
ghost use Rattle.node_format.specs.Outlasting.{Outlasts};

use tuple_codec::{Address, Digester};

/// More bytes than most keys have.
const SHORT: usize = 64;

/// Whether the node of this level ends after the item with this key, by which its bytes are `size` and its items `count`.
///
/// The key is hashed only where it decides: from 512 bytes up to 16,383.
pub fn ends_here<D: Digester>(level: u8, size: u32, count: u32, key: &[u8]) -> bool
    requires { length key.now ≤ 4096 }
    ensures { result ≡ ends D.address level size count key.now }
{
    count >= 2
        && (size >= 16_384
            || size >= 512
                && u64::from(draw::<D>(level, key)) < (1 + u64::from(size) / 1024) * (1 << 24))
}

/// As [`ends_here`], where it is known that no node of fewer than so many steps of 1,024 bytes ends after the key: it is
/// hashed only from there on. Nothing has to be known for 0 steps.
pub fn ends_from<D: Digester>(level: u8, size: u32, count: u32, steps: u32, key: &[u8]) -> bool
    requires key { length key.now ≤ 4096 }
    requires known { Outlasts D.address level steps key.now }
    ensures { result ≡ ends D.address level size count key.now }
{
    size / 1024 >= steps && ends_here::<D>(level, size, count, key)
}

/// How many steps of 1,024 bytes an item outlasts that stood in a node and didn't end it, where the node had so many bytes and
/// items up to it.
///
/// The rule compares one number of the key with a bound that rises by such steps alone. So what didn't end a node in one step
/// ends none in it or in a lower one. From the first item, and below 512 bytes, nothing is known: there no key is asked.
pub fn steps_of(size: u32, count: u32) -> u32
    ensures { (address : List ℕ → List ℕ) (level : ℕ) (key : List ℕ) → ends address level size count key ≡ false → Outlasts address level result key }
{
    if count >= 2 && size >= 512 {
        1 + size / 1024
    } else {
        0
    }
}

/// The number by which a key ends a node or not: the first four bytes of the address of level and key.
fn draw<D: Digester>(level: u8, key: &[u8]) -> u32
    requires { length key.now ≤ 4096 }
    ensures { result ≡ from_be_bytes w32 (take 4 (D.address (level ∷ key.now))) }
{
    first_number(&address_of_key::<D>(level, key).0)
}

/// The address of level and key. A key of ordinary length is hashed in a short buffer, so that few bytes are cleared for it.
fn address_of_key<D: Digester>(level: u8, key: &[u8]) -> Address
    requires { length key.now ≤ 4096 }
    ensures { result.0 ≡ D.address (level ∷ key.now) }
{
    if key.len() < SHORT {
        address_in::<D>(&mut [0u8; SHORT], level, key)
    } else {
        address_in::<D>(&mut [0u8; 4097], level, key)
    }
}

/// The same, with a buffer for both.
fn address_in<D: Digester>(buffer: &mut [u8], level: u8, key: &[u8]) -> Address
    requires { 1 + length key.now ≤ length buffer.old }
    ensures { result.0 ≡ D.address (level ∷ key.now) }
{
    put(buffer, level, key);
    D::address_of(&buffer[..1 + key.len()])
}

/// Writes level and key to the front.
fn put(bytes: &mut [u8], level: u8, key: &[u8])
    requires { 1 + length key.now ≤ length bytes.old }
    ensures front { take (1 + length key.now) bytes.new ≡ level ∷ key.now }
    ensures length { length bytes.new ≡ length bytes.old }
{
    bytes[0] = level;
    bytes[1..1 + key.len()].copy_from_slice(key);
}

fn first_number(bytes: &[u8]) -> u32
    requires { 4 ≤ length bytes.now }
    ensures { result ≡ from_be_bytes w32 (take 4 bytes.now) }
{
    let (front, _) = bytes.split_at(4);
    u32::from_be_bytes([front[0], front[1], front[2], front[3]])
}
