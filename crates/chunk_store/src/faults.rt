//! Why chunks are refused.

ghost use Rattle.std.specs.Prelude.{◌≡◌, ◌≢◌, Some, None, IfOk, IfErr, OnErr, if◌then◌else◌, option_map};
ghost use Rattle.chunk_store.specs.Clashes.{IsCauseAt, IsOther};

use std::alloc::{AllocError, Global};
use thiserror::Error;
use tuple_codec::{Address, Blob};

/// Two different byte strings of one address: first the one that is held, second the one that was brought.
#[derive(Debug, Drop, Clone, PartialEq, Eq)]
pub struct Clash {
    pub address: Address,
    pub first: Blob,
    pub second: Blob,
}

/// Why chunks weren't taken.
#[derive(Debug, Drop, Clone, PartialEq, Eq, Error)]
pub enum PutFault {
    #[error("out of memory")]
    Memory,
    /// Other bytes stand under the address of bytes that were brought.
    #[error("two byte strings have one address")]
    Collision(Clash),
}

impl From<AllocError> for PutFault {
    ghost use Rattle.std.specs.Prelude.{◌≡◌};
    ghost use Rattle.chunk_store.specs.declared.faults.PutFault.TheVariants.{Memory};

    ghost from_gives = { λ _ fault. fault ≡ Memory };

    fn from(_: AllocError) -> PutFault {
        PutFault::Memory
    }
}

/// Whether `bytes` are what was found at `address`: false where nothing was, a collision where it was something else.
pub(crate) fn is_there(
    alloc: Global,
    address: &Address,
    found: Option<&[u8]>,
    bytes: &[u8],
) -> Result<bool, PutFault>
    ensures there { IfOk result (λ there. option_map (λ held. held.now) found.entry ≡ (if there then Some bytes.now else None)) }
    ensures cause { IfErr result (IsCauseAt address.now.0 (option_map (λ held. held.now) found.entry) bytes.now) }
    ensures other { OnErr result (IsOther (option_map (λ held. held.now) found.entry) bytes.now) }
{
    let Some(held) = found else {
        return Ok(false);
    };
    if held == bytes {
        return Ok(true);
    }
    Err(collision(alloc, address, held, bytes))
}

/// The fault that holds both byte strings, or want of memory for them.
fn collision(alloc: Global, address: &Address, held: &[u8], brought: &[u8]) -> PutFault
    requires { held.now ≢ brought.now }
    ensures { IsCauseAt address.now.0 (Some held.now) brought.now result }
{
    match both_of(alloc, address, held, brought) {
        Ok(clash) => PutFault::Collision(clash),
        Err(_) => PutFault::Memory,
    }
}

fn both_of(
    alloc: Global,
    address: &Address,
    held: &[u8],
    brought: &[u8],
) -> Result<Clash, AllocError>
    ensures address { IfOk result (λ clash. clash.address ≡ address.now) }
    ensures held { IfOk result (λ clash. clash.first ≡ held.now) }
    ensures brought { IfOk result (λ clash. clash.second ≡ brought.now) }
{
    Ok(Clash {
        address: *address,
        first: Blob::from_vec(Vec::from_slice(alloc, held)?),
        second: Blob::from_vec(Vec::from_slice(alloc, brought)?),
    })
}
