//! A draft: chunks of its own over a store.

ghost use Rattle.std.specs.Prelude.{ℕ, List, ◌≡◌, ◌⊎◌, ◌++◌, ◌<◌, ◌≤◌, [], ◌∷◌, if◌then◌else◌, length, max, option_map, slice_get, take, Some, None, is_some, IfOk, IfErr, OnOk, OnErr};
ghost use Rattle.std.specs.Arc.{arc_value};
ghost use Rattle.chunk_region.specs.Pages.{Pages};
ghost use Rattle.chunk_store.specs.Chunks.{Agree, AreNamed, IsHeld, IsSingle, chunk_bytes};
ghost use Rattle.chunk_store.specs.Clashes.{IsCause};
ghost use Rattle.chunk_store.specs.Drafts.{IsSound, Puts, TakesAtMostOnePage, chunks_of, cut_to, pages_for, pages_in};
ghost use Rattle.chunk_store.specs.Stores.{IsBrought, IsSealed, all_chunks};

use crate::faults::{PutFault, is_there};
use crate::index::{Index, Placed};
use crate::segments::Segment;
use crate::stores::Store;
use chunk_region::{PagePool, Region};
use std::alloc::{AllocError, Global};
use std::marker::{Model, PhantomData};
use std::sync::Arc;
use tuple_codec::{Address, Digester};

/// How many chunks a draft had of its own at one moment.
#[derive(Clone, Copy, PartialEq, Eq)]
pub struct DraftMark {
    pub(crate) own: usize,
}

/// A store, and chunks of the draft's own over it, which lie in a region over the draft's pool of pages. A contract
/// sees the two lists of chunks, and how many pages are free and how many are taken.
#[derive(Drop)]
pub struct Draft<D: Digester> {
    base: Store,
    index: Index,
    region: Region,
    digester: PhantomData<D>,
}

impl<D: Digester> Model for Draft<D> {
    ghost use Rattle.chunk_store.specs.Drafts.{Drafting};
    ghost use Rattle.chunk_store.specs.Placing.{AreOver, chunks_in};
    ghost use Rattle.chunk_store.specs.Stores.{all_chunks};

    ghost Value = { Drafting };

    ghost view = { λ d. record { chunks = record { base = all_chunks d.base; own = chunks_in d.region.pages d.index.placed }; segments = d.base.segments; free = d.region.free; taken = d.region.taken } };

    ghost invariant = { λ d. AreOver D.address (all_chunks d.base) d.region.pages d.index.placed };
}

/// Why a draft wasn't sealed; the draft comes back as it was.
#[derive(Drop)]
pub enum SealFault<D: Digester> {
    Memory(Draft<D>),
}

impl<D: Digester> Draft<D> {
    /// A draft over `store` that has no chunk of its own; those to come are kept on the pool's pages.
    pub fn new(store: Store, pool: PagePool) -> Draft<D>
        ensures chunks { result.chunks ≡ record { base = all_chunks store; own = [] } }
        ensures segments { result.segments ≡ store.segments }
        ensures free { result.free ≡ pool.free }
        ensures taken { result.taken ≡ 0 }
    {
        let index = Index::new(store.allocator());
        Draft {
            base: store,
            index,
            region: Region::new(pool),
            digester: PhantomData,
        }
    }

    /// Keeps these bytes, or finds that they are kept: the address is theirs. A collision shows the bytes held first.
    pub fn put(&mut self, bytes: &[u8]) -> Result<Address, PutFault>
        requires { length bytes.now ≤ 65536 }
        ensures { Puts D.address bytes.now self.old self.new result }
    {
        let address = D::address_of(bytes);
        if self.has(&address, bytes)? {
            return Ok(address);
        }
        self.add(address, bytes)?;
        Ok(address)
    }

    /// Whether these bytes are at this address; a collision where others are.
    fn has(&self, address: &Address, bytes: &[u8]) -> Result<bool, PutFault>
        ensures there { IfOk result (λ there. chunks_of self.now.chunks address.now.0 ≡ (if there then Some bytes.now else None)) }
        ensures cause { IfErr result (IsCause (chunks_of self.now.chunks) (chunk_bytes ((address.now.0, bytes.now) ∷ []))) }
    {
        is_there(self.index.allocator(), address, self.get(address), bytes)
    }

    /// Keeps bytes as the last own chunk.
    fn add(&mut self, address: Address, bytes: &[u8]) -> Result<(), AllocError>
        requires size { length bytes.now ≤ 65536 }
        requires named { D.address bytes.now ≡ address.0 }
        requires absent { chunk_bytes self.old.chunks.own address.0 ≡ None }
        requires agrees { (others : List ℕ) → chunk_bytes self.old.chunks.base address.0 ≡ Some others → others ≡ bytes.now }
        ensures ok { OnOk result (self.new.chunks ≡ record { base = self.old.chunks.base; own = self.old.chunks.own ++ (address.0, bytes.now) ∷ [] }) }
        ensures same { OnErr result (self.new ≡ self.old) }
        ensures segments { self.new.segments ≡ self.old.segments }
        ensures pages { TakesAtMostOnePage self.old self.new }
    {
        self.index.make_room(1)?;
        let before = self.region.mark();
        let span = self.region.place(bytes)?;
        self.index.push(Placed {
            address,
            span,
            before,
        });
        Ok(())
    }

    /// The bytes at an address, in the store or of the draft's own.
    pub fn get(&self, address: &Address) -> Option<&[u8]>
        ensures { option_map (λ bytes. bytes.now) result ≡ chunks_of self.now.chunks address.now.0 }
    {
        if let Some(bytes) = self.base.get(address) {
            return Some(bytes);
        }
        match self.index.find(address) {
            Some(span) => Some(self.region.bytes(span)),
            None => None,
        }
    }

    /// What every draft has, for proofs: one address has one byte string, and own chunks are named. It does nothing.
    pub fn tell(&self)
        ensures { IsSound D.address self.now.chunks }
    {
        let _index = &self.index;
    }

    /// Where the draft is now, to go back to.
    pub fn mark(&self) -> DraftMark
        ensures own { result.own ≡ length self.now.chunks.own }
        ensures taken { self.now.taken ≡ pages_for self.now.chunks.own }
    {
        self.region.tell();
        DraftMark {
            own: self.index.len(),
        }
    }

    /// Drops what came after `mark` was taken, and gives back the pages that only this lies on.
    pub fn back_to(&mut self, mark: DraftMark)
        ensures chunks { self.new.chunks ≡ cut_to mark.own self.old.chunks }
        ensures segments { self.new.segments ≡ self.old.segments }
        ensures pages { pages_in self.new ≡ pages_in self.old }
        ensures taken { self.new.taken ≡ pages_for self.new.chunks.own }
    {
        self.region.tell();
        if mark.own < self.index.len() {
            let first = self.index.at(mark.own);
            self.region.back_to(first.before);
            self.index.cut(mark.own);
        }
    }

    /// Puts the draft on another store, with its own chunks. A collision shows the store's bytes first.
    pub fn rebase(&mut self, store: Store) -> Result<(), PutFault>
        ensures chunks { OnOk result (self.new.chunks ≡ record { base = all_chunks store; own = self.old.chunks.own }) }
        ensures segments { OnOk result (self.new.segments ≡ store.segments) }
        ensures agree { OnOk result (Agree (chunk_bytes (all_chunks store)) (chunk_bytes self.old.chunks.own)) }
        ensures cause { IfErr result (IsCause (chunk_bytes (all_chunks store)) (chunk_bytes self.old.chunks.own)) }
        ensures same { OnErr result (self.new ≡ self.old) }
        ensures pages { pages_in self.new ≡ pages_in self.old }
    {
        self.fits(&store)?;
        self.base = store;
        Ok(())
    }

    /// Refuses a store that has other bytes than the draft's own at some address.
    fn fits(&self, store: &Store) -> Result<(), PutFault>
        ensures agree { OnOk result (Agree (chunk_bytes (all_chunks store.now)) (chunk_bytes self.now.chunks.own)) }
        ensures single { IsSingle (all_chunks store.now) }
        ensures cause { IfErr result (IsCause (chunk_bytes (all_chunks store.now)) (chunk_bytes self.now.chunks.own)) }
    {
        store.tell();
        for at in 0..self.own_count() {
            let (address, bytes) = self.own_chunk(at);
            is_there(self.index.allocator(), &address, store.get(&address), bytes)?;
        }
        Ok(())
    }

    /// How many chunks the draft has of its own.
    fn own_count(&self) -> usize
        ensures { result ≡ length self.now.chunks.own }
    {
        self.index.len()
    }

    /// An own chunk, by its place.
    fn own_chunk(&self, at: usize) -> (Address, &[u8])
        requires { at < length self.now.chunks.own }
        ensures chunk { slice_get self.now.chunks.own at ≡ Some (result.0.0, result.1.now) }
        ensures found { chunk_bytes self.now.chunks.own result.0.0 ≡ Some result.1.now }
        ensures size { length result.1.now ≤ 65536 }
        ensures named { D.address result.1.now ≡ result.0.0 }
        ensures first { chunk_bytes (take at self.now.chunks.own) result.0.0 ≡ None }
    {
        let placed = self.index.at(at);
        (placed.address, self.region.bytes(placed.span))
    }

    /// A draft on `store` with the same chunks of its own. A collision shows the store's bytes first.
    pub fn copied(&self, store: Store) -> Result<Draft<D>, PutFault>
        ensures same { IfOk result (λ draft. draft.chunks ≡ record { base = all_chunks store; own = self.now.chunks.own }) }
        ensures segments { IfOk result (λ draft. draft.segments ≡ store.segments) }
        ensures agree { OnOk result (Agree (chunk_bytes (all_chunks store)) (chunk_bytes self.now.chunks.own)) }
        ensures cause { IfErr result (IsCause (chunk_bytes (all_chunks store)) (chunk_bytes self.now.chunks.own)) }
    {
        self.fits(&store)?;
        let pool = PagePool::with_pages(self.index.allocator(), 0)?;
        let mut draft = Draft::new(store, pool);
        draft.reserve(self.own_count())?;
        self.copy_into(&mut draft)?;
        Ok(draft)
    }

    /// Takes the memory for finding so many own chunks more.
    fn reserve(&mut self, chunks: usize) -> Result<(), AllocError>
        ensures { self.new ≡ self.old }
    {
        self.index.make_room(chunks)
    }

    /// Adds the own chunks to those of a draft that has none and whose store agrees with them.
    fn copy_into(&self, draft: &mut Draft<D>) -> Result<(), AllocError>
        requires none { draft.old.chunks.own ≡ [] }
        requires agree { Agree (chunk_bytes draft.old.chunks.base) (chunk_bytes self.now.chunks.own) }
        ensures own { OnOk result (draft.new.chunks ≡ record { base = draft.old.chunks.base; own = self.now.chunks.own }) }
        ensures segments { OnOk result (draft.new.segments ≡ draft.old.segments) }
    {
        for at in 0..self.own_count() {
            let (address, bytes) = self.own_chunk(at);
            draft.add(address, bytes)?;
        }
        Ok(())
    }

    /// Drops what the draft has of its own, and puts it on another store.
    pub fn restart(&mut self, base: Store)
        ensures chunks { self.new.chunks ≡ record { base = all_chunks base; own = [] } }
        ensures segments { self.new.segments ≡ base.segments }
        ensures free { self.new.free ≡ pages_in self.old }
        ensures taken { self.new.taken ≡ 0 }
    {
        self.region.clear();
        self.index.cut(0);
        self.base = base;
    }

    /// Drops what the draft has of its own; the store below stays.
    pub fn clear(&mut self)
        ensures chunks { self.new.chunks ≡ record { base = self.old.chunks.base; own = [] } }
        ensures segments { self.new.segments ≡ self.old.segments }
        ensures free { self.new.free ≡ pages_in self.old }
        ensures taken { self.new.taken ≡ 0 }
    {
        self.region.clear();
        self.index.cut(0);
    }

    /// How many pages of the pool are free.
    pub fn free_pages(&self) -> u32
        ensures { result ≡ self.now.free }
    {
        self.region.free_pages()
    }

    /// Raises the pool's free pages to `n` where they are fewer, or changes nothing.
    pub fn refill(&mut self, n: u32) -> Result<(), AllocError>
        ensures chunks { self.new.chunks ≡ self.old.chunks }
        ensures segments { self.new.segments ≡ self.old.segments }
        ensures taken { self.new.taken ≡ self.old.taken }
        ensures raised { OnOk result (self.new.free ≡ max self.old.free n) }
        ensures same { OnErr result (self.new ≡ self.old) }
    {
        self.region.refill(n)
    }

    /// Drops the draft and gives back its pool, with all pages free.
    pub fn release(self) -> PagePool
        ensures { result.free ≡ pages_in self }
    {
        self.region.release()
    }

    /// Seals the own chunks, to be appended to a store, and gives back the pool, with all pages free.
    ///
    /// The store's last segments are joined to them, from the first one on that has less than twice as many chunks as come
    /// after it, so that a store to which this is appended has few segments. The bytes of the own chunks are copied; the
    /// pages of the segments that are joined are shared with these.
    pub fn seal(self) -> Result<(Arc<Segment>, PagePool), SealFault<D>>
        ensures sealed { IfOk result (λ sealed. IsSealed self.segments self.chunks.own (arc_value sealed.0)) }
        ensures pool { IfOk result (λ sealed. sealed.1.free ≡ pages_in self) }
        ensures same { IfErr result (λ fault. fault ≡ SealFault.Memory self) }
    {
        match self.gathered() {
            Ok(segment) => Ok((segment, self.release())),
            Err(_) => Err(SealFault::Memory(self)),
        }
    }

    /// Seals the own chunks alone, and gives back the pool, with all pages free. It is for drafts over a look at a store that others append to meanwhile:
    /// what each of them joined would stand there as often, and be joined again by each. Whoever appends it joins it there, by [`Store::tidy`].
    pub fn seal_own(self) -> Result<(Arc<Segment>, PagePool), SealFault<D>>
        ensures sealed { IfOk result (λ sealed. arc_value sealed.0 ≡ self.chunks.own) }
        ensures brought { IfOk result (λ sealed. IsBrought self.segments self.chunks.own (arc_value sealed.0)) }
        ensures pool { IfOk result (λ sealed. sealed.1.free ≡ pages_in self) }
        ensures same { IfErr result (λ fault. fault ≡ SealFault.Memory self) }
    {
        match self.own_segment() {
            Ok(segment) => Ok((segment, self.release())),
            Err(_) => Err(SealFault::Memory(self)),
        }
    }

    /// The own chunks alone, sealed to be appended to `store`; the draft stays as it is. A collision shows the store's bytes first. Whoever appends them
    /// joins them there, as behind [`Draft::seal_own`].
    pub fn sealed_for(&self, store: &Store) -> Result<Arc<Segment>, PutFault>
        ensures sealed { IfOk result (λ sealed. arc_value sealed ≡ self.now.chunks.own) }
        ensures agree { OnOk result (Agree (chunk_bytes (all_chunks store.now)) (chunk_bytes self.now.chunks.own)) }
        ensures cause { IfErr result (IsCause (chunk_bytes (all_chunks store.now)) (chunk_bytes self.now.chunks.own)) }
    {
        self.fits(store)?;
        let sealed = self.own_segment()?;
        Ok(sealed)
    }

    /// The own chunks.
    fn own_segment(&self) -> Result<Arc<Segment>, AllocError>
        ensures { IfOk result (λ sealed. arc_value sealed ≡ self.now.chunks.own) }
    {
        let own = Segment::of(&self.index, &self.region, 0)?;
        Ok(Arc::new(self.index.allocator(), own)?)
    }

    /// The own chunks, and those of the segments that are joined to them.
    fn gathered(&self) -> Result<Arc<Segment>, AllocError>
        ensures { IfOk result (λ sealed. IsSealed self.now.segments self.now.chunks.own (arc_value sealed)) }
    {
        let from = self.base.joined_from(self.index.len());
        let more = self.base.count_from(from);
        let own = Segment::of(&self.index, &self.region, more)?;
        let whole = self.base.joined_by(from, own)?;
        Ok(Arc::new(self.index.allocator(), whole)?)
    }
}
