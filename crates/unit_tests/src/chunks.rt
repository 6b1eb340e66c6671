//! Drafts and stores of small chunks: a collision, marks, sealing, and how segments are joined.

use crate::samples::draft_of;
use chunk_region::PagePool;
use chunk_store::{Draft, PutFault, Sha512Cut, Store};
use std::alloc::Global;
use std::test::Fail;
use tuple_codec::{Address, Digester};

#[test]
fn an_address_is_the_first_20_bytes_of_the_digest(rt: HostRuntime) {
    let address = Address([
        0xdd, 0xaf, 0x35, 0xa1, 0x93, 0x61, 0x7a, 0xba, 0xcc, 0x41, 0x73, 0x49, 0xae, 0x20, 0x41,
        0x31, 0x12, 0xe6, 0xfa, 0x4e,
    ]);
    assert!(rt; Sha512Cut::address_of(b"abc") == address);
}

/// Names all bytes alike.
#[derive(Drop)]
struct OneForAll;

impl Digester for OneForAll {
    ghost use Rattle.std.specs.Prelude.{replicate};

    ghost address = { λ _. replicate 20 7 };

    fn address_of(_bytes: &[u8]) -> Address {
        Address([7; 20])
    }
}

/// Whether a draft takes one text twice, and answers another with the clash of both.
fn clashes(draft: &mut Draft<OneForAll>) -> Result<bool, PutFault> {
    let address = draft.put(b"a")?;
    let again = draft.put(b"a")?;
    Ok(match draft.put(b"b") {
        Err(PutFault::Collision(clash)) => address == again
            && clash.address == address
            && clash.first.as_slice() == b"a".as_slice()
            && clash.second.as_slice() == b"b".as_slice(),
        _ => false,
    })
}

#[test]
fn two_strings_of_one_address_are_a_collision(rt: HostRuntime) -> Result<(), Fail> {
    let mut draft = draft_of::<OneForAll>(rt.alloc())?;
    assert!(rt; clashes(&mut draft)?);
    assert!(rt; draft.release().free_pages() == 1);
    Ok(())
}

fn has(draft: &Draft<Sha512Cut>, address: &Address, bytes: &[u8]) -> bool {
    draft.get(address) == Some(bytes)
}

/// Whether what was put behind a mark goes with it alone.
fn goes_back(draft: &mut Draft<Sha512Cut>) -> Result<bool, PutFault> {
    let first = draft.put(b"first")?;
    let mark = draft.mark();
    let second = draft.put(b"second")?;
    let was_there = has(draft, &second, b"second");
    draft.back_to(mark);
    Ok(was_there && has(draft, &first, b"first") && draft.get(&second).is_none())
}

fn is_copied(
    alloc: Global,
    draft: &Draft<Sha512Cut>,
    address: &Address,
    bytes: &[u8],
) -> Result<bool, PutFault> {
    let copy = draft.copied(Store::new(alloc))?;
    Ok(has(&copy, address, bytes))
}

/// Whether a chunk is in a copy, stays over another store, and goes where the draft starts again.
fn moves(alloc: Global, draft: &mut Draft<Sha512Cut>) -> Result<bool, PutFault> {
    let address = draft.put(b"kept")?;
    let is_copied = is_copied(alloc, draft, &address, b"kept")?;
    draft.rebase(Store::new(alloc))?;
    let is_kept = has(draft, &address, b"kept");
    draft.restart(Store::new(alloc));
    Ok(is_copied && is_kept && draft.get(&address).is_none())
}

#[test]
fn a_draft_goes_back_to_a_mark_and_to_other_stores(rt: HostRuntime) -> Result<(), Fail> {
    let mut draft = draft_of::<Sha512Cut>(rt.alloc())?;
    assert!(rt; goes_back(&mut draft)?);
    assert!(rt; moves(rt.alloc(), &mut draft)?);
    assert!(rt; draft.free_pages() == 1);
    draft.refill(4)?;
    draft.clear();
    assert!(rt; draft.free_pages() == 4);
    Ok(())
}

/// Appends a letter to a store, sealed in a draft of its own, with the store's last segments or alone. It tells how many pages were free then.
fn append(alloc: Global, store: &mut Store, letter: u8, alone: bool) -> Result<u32, PutFault> {
    store.reserve(1)?;
    let pool = PagePool::with_pages(alloc, 1)?;
    let mut draft: Draft<Sha512Cut> = Draft::new(store.share()?, pool);
    draft.put(&[letter])?;
    let sealed = if alone {
        draft.seal_own()
    } else {
        draft.seal()
    };
    let Ok((segment, pool)) = sealed else {
        return Err(PutFault::Memory);
    };
    store.append(segment)?;
    Ok(pool.free_pages())
}

/// Whether six segments of one chunk each become two, and the first chunk is still found.
fn are_joined(alloc: Global, alone: bool) -> Result<bool, PutFault> {
    let mut store = Store::new(alloc);
    for letter in b'a'..b'g' {
        if append(alloc, &mut store, letter, alone)? != 1 {
            return Ok(false);
        }
        if alone {
            store.tidy()?;
        }
    }
    let first = Sha512Cut::address_of(b"a");
    Ok(store.segments() == 2 && store.get(&first) == Some(b"a".as_slice()))
}

#[test]
fn small_segments_are_joined(rt: HostRuntime) -> Result<(), Fail> {
    assert!(rt; are_joined(rt.alloc(), false)?);
    assert!(rt; are_joined(rt.alloc(), true)?);
    Ok(())
}
