//! A region: pieces of bytes, placed one after another and undone from the end.

ghost use Rattle.std.specs.Prelude.{◌≡◌, ◌+◌, ◌-◌, ◌≤◌, ◌<◌, true, [], ◌∷◌, ◌++◌, length, max, take, min, IfOk, IsOk, OnOk, OnErr, if◌then◌else◌};
ghost use Rattle.std.specs.Vec.{vec_capacity};
ghost use Rattle.chunk_region.specs.Holding.{IsSame, TakesAtMostOne, all_pages};
ghost use Rattle.chunk_region.specs.Pages.{AllBefore, IsLater, IsWritten, Keeps, KeepsBefore, LeadsBack, Stands, cut, cut_pages, has_room, mark_of, on_last_page, place_on, write_on_last};

use crate::page::{PAGE_BYTES, Page};
use crate::pool::fill;
use crate::shared::{PageList, SharedPage};
use crate::{Mark, PagePool, Sealed, SharedPages, Span};
use std::alloc::AllocError;
use std::marker::Model;

/// Pieces of bytes over a pool of pages. A contract sees the bytes written on each page and the numbers of pages.
///
/// A piece lies in one page, behind the piece before it where there is room. A region that has 2^32 - 1 pages answers
/// want of memory in place of one more.
#[derive(Drop)]
pub struct Region {
    /// The pages in use, and behind them the free ones.
    pages: Vec<Page>,
    used: usize,
    /// An empty list, for the free pages when the region is sealed.
    spare: Vec<Page>,
}

impl Model for Region {
    ghost use Rattle.std.specs.Prelude.{◌≡◌, ◌-◌, ◌<◌, ◌≤◌, ◌^◌, [], length, take};
    ghost use Rattle.std.specs.Vec.{vec_capacity};
    ghost use Rattle.chunk_region.specs.Holding.{Holding};

    ghost Value = { Holding };

    ghost view = { λ region. record { pages = take region.used region.pages.items; free = length region.pages.items - region.used; taken = region.used; room = vec_capacity region.spare } };

    ghost invariant = { λ region. (region.used ≤ length region.pages.items) × (length region.pages.items < 2 ^ 32) × (region.spare.items ≡ []) };
}

/// The bytes of the piece that `span` names, or a part of one.
pub(crate) fn read(pages: &[Page], span: Span) -> &[u8]
    requires { IsWritten pages.now span }
    ensures { Stands pages.now span result.now }
{
    let page = &pages[span.page as usize];
    let bytes = page.as_slice();
    let start = span.start as usize;
    &bytes[start..start + span.len as usize]
}

impl Region {
    /// A region that holds nothing, over the pool's free pages.
    pub fn new(pool: PagePool) -> Region
        ensures { result ≡ record { pages = []; free = pool.free; taken = 0; room = pool.room } }
    {
        let PagePool { pages, spare } = pool;
        Region {
            pages,
            used: 0,
            spare,
        }
    }

    /// Copies `bytes` into the region; the span names them until a mark taken before is gone back to.
    ///
    /// It takes no memory while the pool has a free page.
    pub fn place(&mut self, bytes: &[u8]) -> Result<Span, AllocError>
        requires { length bytes.now ≤ 65536 }
        ensures stands { IfOk result (λ span. Stands self.new.pages span bytes.now) }
        ensures length { IfOk result (λ span. span.len ≡ length bytes.now) }
        ensures exact { OnOk result (self.new.pages ≡ place_on bytes.now self.old.pages) }
        ensures later { IsLater self.old.pages self.new.pages }
        ensures keeps { Keeps self.old.pages self.new.pages }
        ensures pages { TakesAtMostOne self.old self.new }
        ensures same { OnErr result (IsSame self.old self.new) }
        ensures room { self.old.room ≤ self.new.room }
        ensures succeeds { 0 < self.old.free → IsOk result }
    {
        self.make_room(bytes.len())?;
        Ok(self.write(bytes))
    }

    /// Takes a page to write on, if so many bytes more have no room on the last one.
    fn make_room(&mut self, more: usize) -> Result<(), AllocError>
        requires { more ≤ 65536 }
        ensures pages { OnOk result (self.new.pages ≡ (if has_room more self.old.pages then self.old.pages else self.old.pages ++ [] ∷ [])) }
        ensures has { OnOk result (has_room more self.new.pages ≡ true) }
        ensures counts { TakesAtMostOne self.old self.new }
        ensures same { OnErr result (IsSame self.old self.new) }
        ensures room { self.old.room ≤ self.new.room }
        ensures succeeds { 0 < self.old.free → IsOk result }
    {
        if self.has_room(more) {
            return Ok(());
        }
        self.open_page()
    }

    /// Whether so many bytes more have room on the last page.
    fn has_room(&self, more: usize) -> bool
        requires { more ≤ 65536 }
        ensures { result ≡ has_room more self.now.pages }
    {
        self.used > 0 && on_last(&self.pages, self.used) + more <= PAGE_BYTES
    }

    /// Takes a page to write on.
    fn open_page(&mut self) -> Result<(), AllocError>
        ensures pages { OnOk result (self.new.pages ≡ self.old.pages ++ [] ∷ []) }
        ensures taken { OnOk result (self.new.taken ≡ self.old.taken + 1) }
        ensures counts { TakesAtMostOne self.old self.new }
        ensures same { OnErr result (IsSame self.old self.new) }
        ensures room { self.old.room ≤ self.new.room }
        ensures succeeds { 0 < self.old.free → IsOk result }
    {
        if self.used == self.pages.len() {
            self.make_page()?;
        }
        empty(&mut self.pages, self.used);
        self.used += 1;
        Ok(())
    }

    /// Makes one free page more.
    fn make_page(&mut self) -> Result<(), AllocError>
        ensures pages { self.new.pages ≡ self.old.pages }
        ensures taken { self.new.taken ≡ self.old.taken }
        ensures ok { OnOk result (self.new.free ≡ self.old.free + 1) }
        ensures err { OnErr result (self.new.free ≡ self.old.free) }
        ensures room { self.old.room ≤ self.new.room }
    {
        let count = self.pages.len();
        if count >= u32::MAX as usize {
            return Err(AllocError);
        }
        fill(&mut self.pages, &mut self.spare, count + 1)
    }

    /// Writes on the room that the last page has.
    fn write(&mut self, bytes: &[u8]) -> Span
        requires { has_room (length bytes.now) self.old.pages ≡ true }
        ensures pages { self.new.pages ≡ write_on_last bytes.now self.old.pages }
        ensures span { result ≡ record { page = length self.old.pages - 1; start = on_last_page self.old.pages; len = length bytes.now } }
        ensures free { self.new.free ≡ self.old.free }
        ensures taken { self.new.taken ≡ self.old.taken }
        ensures room { self.new.room ≡ self.old.room }
    {
        let start = write_last(&mut self.pages, self.used, bytes);
        Span {
            page: (self.used - 1) as u32,
            start: start as u32,
            len: bytes.len() as u32,
        }
    }

    /// The bytes that were placed at `span`, in constant time.
    pub fn bytes(&self, span: Span) -> &[u8]
        requires { IsWritten self.now.pages span }
        ensures { Stands self.now.pages span result.now }
    {
        read(&self.pages, span)
    }

    /// A copy of what was placed, to be read by the same spans, on pages of just the size of what is written on them.
    pub fn shared_copy(&self) -> Result<SharedPages, AllocError>
        ensures { IfOk result (λ copy. copy ≡ self.now.pages) }
    {
        let alloc = *self.pages.allocator();
        let mut pages = PageList::with_capacity(alloc, self.used)?;
        for at in 0..self.used {
            let page = &self.pages[at];
            pages.push(SharedPage::copy_of(alloc, page.as_slice())?)?;
        }
        Ok(SharedPages { pages })
    }

    /// Where the writing ends now, to go back to.
    pub fn mark(&self) -> Mark
        ensures at { result ≡ mark_of self.now.pages }
        ensures before { AllBefore result self.now.pages }
    {
        Mark {
            pages: self.used,
            last: on_last(&self.pages, self.used),
        }
    }

    /// What every region has, for proofs: it has taken the pages that are written on, and no other. It does nothing.
    pub fn tell(&self)
        ensures { self.now.taken ≡ length self.now.pages }
    {
        let _pages = &self.pages;
    }

    /// Undoes what was placed after `mark` was taken: all that was placed before stays.
    pub fn back_to(&mut self, mark: Mark)
        ensures cut { self.new.pages ≡ cut mark self.old.pages }
        ensures back { LeadsBack mark self.old.pages self.new.pages }
        ensures stays { KeepsBefore mark self.old.pages self.new.pages }
        ensures pages { all_pages self.new ≡ all_pages self.old }
        ensures taken { self.new.taken ≡ min mark.pages self.old.taken }
        ensures room { self.new.room ≡ self.old.room }
    {
        if self.used < mark.pages {
            return;
        }
        self.used = mark.pages;
        cut_last(&mut self.pages, mark.pages, mark.last);
    }

    /// Undoes all that was placed.
    pub fn clear(&mut self)
        ensures pages { self.new.pages ≡ [] }
        ensures free { self.new.free ≡ all_pages self.old }
        ensures taken { self.new.taken ≡ 0 }
        ensures room { self.new.room ≡ self.old.room }
    {
        self.used = 0;
    }

    /// How many pages of the pool are free.
    pub fn free_pages(&self) -> u32
        ensures { result ≡ self.now.free }
    {
        (self.pages.len() - self.used) as u32
    }

    /// Raises the pool's free pages to `n` where they are fewer, or changes nothing.
    pub fn refill(&mut self, n: u32) -> Result<(), AllocError>
        ensures pages { self.new.pages ≡ self.old.pages }
        ensures taken { self.new.taken ≡ self.old.taken }
        ensures raised { OnOk result (self.new.free ≡ max self.old.free n) }
        ensures lists { OnOk result (self.new.free ≤ self.new.room) }
        ensures same { OnErr result (self.new.free ≡ self.old.free) }
        ensures room { self.old.room ≤ self.new.room }
    {
        let count = self.pages.len().max(self.used + n as usize);
        if count > u32::MAX as usize {
            return Err(AllocError);
        }
        fill(&mut self.pages, &mut self.spare, count)
    }

    /// Gives up all that was placed, and gives back the pool with all its pages free.
    pub fn release(self) -> PagePool
        ensures free { result.free ≡ all_pages self }
        ensures room { result.room ≡ self.room }
    {
        let Region { pages, spare, .. } = self;
        PagePool { pages, spare }
    }

    /// Keeps what was placed, to be read by the same spans, and gives back the pool with the pages not in use.
    ///
    /// It takes no memory. Where the list for those pages wasn't made beforehand, as it is by `with_pages` and `refill`
    /// and whenever a page is made, pages that it has no room for are given up.
    pub fn seal(self) -> (Sealed, PagePool)
        ensures kept { result.0 ≡ self.pages }
        ensures pool { self.free ≤ self.room → result.1.free ≡ self.free }
        ensures most { result.1.free ≤ self.free }
    {
        let Region {
            mut pages,
            used,
            mut spare,
        } = self;
        let alloc = *pages.allocator();
        move_free(&mut pages, used, &mut spare);
        let pool = PagePool {
            pages: spare,
            spare: Vec::new(alloc),
        };
        (Sealed { pages }, pool)
    }
}

/// How many bytes are written on the last of the pages in use: none where none is.
fn on_last(pages: &[Page], used: usize) -> usize
    requires { used ≤ length pages.now }
    ensures count { result ≡ on_last_page (take used pages.now) }
    ensures most { result ≤ 65536 }
{
    if used == 0 {
        return 0;
    }
    let page = &pages[used - 1];
    page.len()
}

/// Empties a page.
fn empty(pages: &mut Vec<Page>, at: usize)
    requires { at < length pages.old.items }
    ensures pages { take (at + 1) pages.new.items ≡ take at pages.old.items ++ [] ∷ [] }
    ensures count { length pages.new.items ≡ length pages.old.items }
{
    let page = &mut pages[at];
    page.cut(0);
}

/// Writes at the end of the last of the pages in use; from which byte on.
fn write_last(pages: &mut Vec<Page>, used: usize, bytes: &[u8]) -> usize
    requires used { used ≤ length pages.old.items }
    requires room { has_room (length bytes.now) (take used pages.old.items) ≡ true }
    ensures pages { take used pages.new.items ≡ write_on_last bytes.now (take used pages.old.items) }
    ensures count { length pages.new.items ≡ length pages.old.items }
    ensures start { result ≡ on_last_page (take used pages.old.items) }
    ensures most { result ≤ 65536 }
{
    let page = &mut pages[used - 1];
    let start = page.len();
    page.add(bytes);
    start
}

/// Cuts the last of the pages in use.
fn cut_last(pages: &mut Vec<Page>, used: usize, last: usize)
    requires { used ≤ length pages.old.items }
    ensures pages { take used pages.new.items ≡ cut_pages used last pages.old.items }
    ensures count { length pages.new.items ≡ length pages.old.items }
{
    if used == 0 {
        return;
    }
    let page = &mut pages[used - 1];
    page.cut(last);
}

/// Moves the pages not in use into a list, as many as it has room for or finds memory for.
fn move_free(pages: &mut Vec<Page>, used: usize, free: &mut Vec<Page>)
    requires used { used ≤ length pages.old.items }
    requires none { free.old.items ≡ [] }
    ensures kept { pages.new.items ≡ take used pages.old.items }
    ensures all { length pages.old.items - used ≤ vec_capacity free.old → length free.new.items ≡ length pages.old.items - used }
    ensures most { length free.new.items ≤ length pages.old.items - used }
{
    'pages: while pages.len() > used {
        if let Some(page) = pages.pop() {
            keep(free, page);
        }
    }
}

/// Puts a page into a list, if that has room or finds memory.
fn keep(pages: &mut Vec<Page>, page: Page)
    ensures kept { length pages.old.items < vec_capacity pages.old → length pages.new.items ≡ length pages.old.items + 1 }
    ensures most { length pages.new.items ≤ length pages.old.items + 1 }
    ensures room { vec_capacity pages.old ≤ vec_capacity pages.new }
{
    let _given_up = pages.push(page);
}
