//! Pieces placed in a region: read by their spans, gone back from, sealed; and where their pages come from.

use chunk_region::{PagePool, Region};
use std::alloc::AllocError;
use std::test::Fail;

/// Whether a third piece was refused, for which memory is taken, where both pages of the pool are full; and how many pages are free then, gone back
/// to the first mark, behind one more piece, and after a refill.
fn free_at_each_step(region: &mut Region) -> Result<(bool, [u32; 4]), AllocError> {
    let first = region.mark();
    let page = [7u8; 65_536];
    region.place(&page)?;
    region.place(&page)?;
    let full = region.free_pages();
    let refused = region.place(b"!").is_err();
    region.back_to(first);
    let back = region.free_pages();
    region.place(&page)?;
    let used = region.free_pages();
    region.refill(16)?;
    Ok((refused, [full, back, used, region.free_pages()]))
}

// A run in which that piece's memory is refused passes, too.
#[test]
fn pages_come_from_the_pool_and_go_back_to_it(rt: HostRuntime) -> Result<(), Fail> {
    let mut region = Region::new(PagePool::with_pages(rt.alloc(), 2)?);
    let (refused, free) = free_at_each_step(&mut region)?;
    let wanted = if refused {
        [0, 2, 1, 16]
    } else {
        [0, 3, 2, 16]
    };
    assert!(rt; free == wanted);
    region.clear();
    let mut pool = region.release();
    pool.refill(3)?;
    assert!(rt; pool.free_pages() == 17);
    let mut two = PagePool::with_pages(rt.alloc(), 2)?;
    two.refill(16)?;
    assert!(rt; two.free_pages() == 16);
    Ok(())
}

/// Whether a piece is read by its span, still so where the next one is gone back from, and in what is sealed then.
fn is_kept(mut region: Region) -> Result<bool, AllocError> {
    let word = region.place(b"word")?;
    let mark = region.mark();
    region.place(&[7u8; 65_536])?;
    let was_read = region.bytes(word) == b"word".as_slice();
    region.back_to(mark);
    let still_read = region.bytes(word) == b"word".as_slice();
    let (sealed, pool) = region.seal();
    let sealed_read = sealed.bytes(word) == b"word".as_slice();
    Ok(was_read && still_read && sealed_read && pool.free_pages() == 1)
}

#[test]
fn what_was_placed_before_a_mark_stays(rt: HostRuntime) -> Result<(), Fail> {
    assert!(rt; is_kept(Region::new(PagePool::with_pages(rt.alloc(), 2)?))?);
    Ok(())
}
