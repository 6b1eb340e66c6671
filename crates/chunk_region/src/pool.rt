//! A pool of free pages.

ghost use Rattle.std.specs.Prelude.{◌≡◌, ◌≤◌, [], length, max, take, IfOk, OnOk, OnErr};
ghost use Rattle.std.specs.Vec.{vec_capacity};

use crate::page::Page;
use std::alloc::{AllocError, Global};
use std::marker::Model;

/// Pages that are free, each with room for 65,536 bytes. A contract sees their number, and for how many pages there is
/// room in the list that a region over this pool leaves behind when it is sealed.
#[derive(Drop)]
pub struct PagePool {
    pub(crate) pages: Vec<Page>,
    /// An empty list, made beforehand so that sealing takes no memory.
    pub(crate) spare: Vec<Page>,
}

impl Model for PagePool {
    ghost use Rattle.std.specs.Prelude.{◌≡◌, [], length, ◌<◌, ◌^◌};
    ghost use Rattle.std.specs.Vec.{vec_capacity};
    ghost use Rattle.chunk_region.specs.Holding.{Pooled};

    ghost Value = { Pooled };

    ghost view = { λ pool. record { free = length pool.pages.items; room = vec_capacity pool.spare } };

    ghost invariant = { λ pool. (length pool.pages.items < 2 ^ 32) × (pool.spare.items ≡ []) };
}

impl PagePool {
    /// A pool of `n` free pages, whose memory is taken here.
    pub fn with_pages(alloc: Global, n: u32) -> Result<PagePool, AllocError>
        ensures free { IfOk result (λ pool. pool.free ≡ n) }
        ensures room { IfOk result (λ pool. pool.free ≤ pool.room) }
    {
        let mut pool = PagePool {
            pages: Vec::new(alloc),
            spare: Vec::new(alloc),
        };
        pool.refill(n)?;
        Ok(pool)
    }

    /// Raises the free pages to `n` where they are fewer, or changes nothing.
    pub fn refill(&mut self, n: u32) -> Result<(), AllocError>
        ensures raised { OnOk result (self.new.free ≡ max self.old.free n) }
        ensures room { OnOk result (self.new.free ≤ self.new.room) }
        ensures same { OnErr result (self.new.free ≡ self.old.free) }
        ensures kept { self.old.room ≤ self.new.room }
    {
        let count = self.pages.len().max(n as usize);
        fill(&mut self.pages, &mut self.spare, count)
    }

    /// How many pages are free.
    pub fn free_pages(&self) -> u32
        ensures { result ≡ self.now.free }
    {
        self.pages.len() as u32
    }
}

/// Makes pages until there are `count`, and room for as many in `spare`; or adds none.
pub(crate) fn fill(
    pages: &mut Vec<Page>,
    spare: &mut Vec<Page>,
    count: usize,
) -> Result<(), AllocError>
    requires more { length pages.old.items ≤ count }
    requires none { spare.old.items ≡ [] }
    ensures front { take (length pages.old.items) pages.new.items ≡ pages.old.items }
    ensures count { OnOk result (length pages.new.items ≡ count) }
    ensures same { OnErr result (pages.new.items ≡ pages.old.items) }
    ensures spare { spare.new.items ≡ [] }
    ensures room { OnOk result (count ≤ vec_capacity spare.new) }
    ensures kept { vec_capacity spare.old ≤ vec_capacity spare.new }
{
    spare.reserve(count)?;
    let before = pages.len();
    pages.reserve(count - before)?;
    let made = add_pages(pages, count);
    if made.is_err() {
        pages.truncate(before);
    }
    made
}

/// Makes pages until there are `count`; some where memory is wanted.
fn add_pages(pages: &mut Vec<Page>, count: usize) -> Result<(), AllocError>
    requires more { length pages.old.items ≤ count }
    requires room { count ≤ vec_capacity pages.old }
    ensures front { take (length pages.old.items) pages.new.items ≡ pages.old.items }
    ensures count { OnOk result (length pages.new.items ≡ count) }
{
    let alloc = *pages.allocator();
    for _page in pages.len()..count {
        pages.push_reserved(Page::new(alloc)?);
    }
    Ok(())
}
