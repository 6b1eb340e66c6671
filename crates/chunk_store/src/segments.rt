//! A segment: chunks that were sealed together.

ghost use Rattle.std.specs.Prelude.{◌≡◌, ◌<◌, ◌≤◌, [], ◌++◌, length, drop, take, option_map, slice_get, Some, None, is_some, IfOk, IfSome};
ghost use Rattle.chunk_store.specs.Building.{gather};
ghost use Rattle.chunk_store.specs.Placing.{ArePlaced, chunks_in};
ghost use Rattle.chunk_store.specs.Chunks.{IsSingle, chunk_bytes};
ghost use Rattle.chunk_store.specs.Stores.{is_within};

use crate::index::{Index, Placed};
use chunk_region::{PagePool, Region, SharedPages};
use std::alloc::{AllocError, Global};
use std::marker::Model;
use tuple_codec::Address;

/// Chunks that were sealed together, never to change again. A contract sees the list of them.
#[derive(Drop)]
pub struct Segment {
    index: Index,
    sealed: SharedPages,
}

impl Model for Segment {
    ghost use Rattle.std.specs.Prelude.{List};
    ghost use Rattle.chunk_store.specs.Chunks.{Chunk};
    ghost use Rattle.chunk_store.specs.Placing.{ArePlaced, chunks_in};

    ghost Value = { List Chunk };

    ghost view = { λ s. chunks_in s.sealed s.index.placed };

    ghost invariant = { λ s. ArePlaced s.sealed s.index.placed };
}

impl Segment {
    /// Chunks of a region, copied to pages of just their size, with room to find so many more.
    pub(crate) fn of(index: &Index, region: &Region, more: usize) -> Result<Segment, AllocError>
        requires { ArePlaced region.now.pages index.now.placed }
        ensures { IfOk result (λ segment. segment ≡ chunks_in region.now.pages index.now.placed) }
    {
        let index = index.copied(more)?;
        let sealed = region.shared_copy()?;
        Ok(Segment { index, sealed })
    }

    /// No chunks, with room to find so many.
    pub(crate) fn empty(alloc: Global, more: usize) -> Result<Segment, AllocError>
        ensures { IfOk result (λ segment. segment ≡ []) }
    {
        let region = Region::new(PagePool::with_pages(alloc, 0)?);
        Segment::of(&Index::new(alloc), &region, more)
    }

    /// Its chunks, and behind them those of another segment whose addresses it hasn't. The other one's pages are shared,
    /// and lie behind its own.
    pub(crate) fn joined(self, other: &Segment) -> Result<Segment, AllocError>
        ensures { IfOk result (λ both. both ≡ gather self other.now) }
    {
        let both = self.shared_with(other)?;
        both.with_few_pages()
    }

    fn shared_with(self, other: &Segment) -> Result<Segment, AllocError>
        ensures { IfOk result (λ both. both ≡ gather self other.now) }
    {
        let Segment { mut index, sealed } = self;
        let pages = sealed.pages();
        let sealed = sealed.joined(&other.sealed)?;
        index.join(&other.index, pages)?;
        Ok(Segment { index, sealed })
    }

    /// The same chunks, copied where there are more pages than chunks: segments that have chunks in common would list the
    /// pages of these once more with each join.
    fn with_few_pages(self) -> Result<Segment, AllocError>
        ensures { IfOk result (λ same. same ≡ self) }
    {
        if self.sealed.pages() as usize <= self.index.len() {
            Ok(self)
        } else {
            self.copied()
        }
    }

    /// The same chunks, on pages of their own.
    fn copied(&self) -> Result<Segment, AllocError>
        ensures { IfOk result (λ copy. copy ≡ self.now) }
    {
        let alloc = self.index.allocator();
        let mut index = Index::new(alloc);
        let mut region = Region::new(PagePool::with_pages(alloc, 0)?);
        for at in 0..self.len() {
            let (address, bytes) = self.chunk(at);
            let before = region.mark();
            let span = region.place(bytes)?;
            index.make_room(1)?;
            index.push(Placed {
                address,
                span,
                before,
            });
        }
        let sealed = region.shared_copy()?;
        Ok(Segment { index, sealed })
    }

    /// How many chunks it has.
    pub(crate) fn len(&self) -> usize
        ensures count { result ≡ length self.now }
        ensures single { IsSingle self.now }
    {
        let _sealed = &self.sealed;
        self.index.len()
    }

    /// The chunk at a place.
    pub(crate) fn chunk(&self, at: usize) -> (Address, &[u8])
        requires { at < length self.now }
        ensures chunk { slice_get self.now at ≡ Some (result.0.0, result.1.now) }
        ensures found { chunk_bytes self.now result.0.0 ≡ Some result.1.now }
        ensures size { length result.1.now ≤ 65536 }
        ensures apart { chunk_bytes (take at self.now) result.0.0 ≡ None }
    {
        let placed = self.index.at(at);
        (placed.address, self.sealed.bytes(placed.span))
    }

    /// The bytes at an address, by one look-up in a table, or among a few chunks from the front.
    pub(crate) fn get(&self, address: &Address) -> Option<&[u8]>
        ensures { option_map (λ bytes. bytes.now) result ≡ chunk_bytes self.now address.now.0 }
    {
        match self.index.find(address) {
            Some(span) => Some(self.sealed.bytes(span)),
            None => None,
        }
    }

    /// Whether a chunk stands at an address.
    fn has(&self, address: &Address) -> bool
        ensures { result ≡ is_some (chunk_bytes self.now address.now.0) }
    {
        match self.get(address) {
            Some(_) => true,
            None => false,
        }
    }

    /// Whether each of its addresses is one of another segment, too.
    pub(crate) fn is_within(&self, other: &Segment) -> bool
        ensures { result ≡ is_within self.now other.now }
    {
        for at in 0..self.len() {
            let (address, _bytes) = self.chunk(at);
            if !other.has(&address) {
                return false;
            }
        }
        true
    }

    /// Where its chunks begin in another segment, if they all stand there just before a place: they are compared place by
    /// place, without a look-up.
    pub(crate) fn place_before(&self, other: &Segment, end: usize) -> Option<usize>
        requires { end ≤ length other.now }
        ensures same { IfSome result (λ start. drop start other.now ≡ self.now ++ drop end other.now) }
        ensures before { IfSome result (λ start. start ≤ end) }
    {
        let count = self.len();
        if end < count {
            return None;
        }
        let start = end - count;
        for at in 0..count {
            let (address, bytes) = self.chunk(at);
            let (there, others) = other.chunk(start + at);
            if address != there {
                return None;
            }
            if bytes != others {
                return None;
            }
        }
        Some(start)
    }
}
