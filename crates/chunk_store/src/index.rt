//! Where chunks lie in a region, found by address.

ghost use Rattle.std.specs.Prelude.{◌≡◌, ◌+◌, ◌<◌, ◌≤◌, ◌^◌, ◌++◌, [], ◌∷◌, true, false, length, map, slice_get, take, Some, None, is_some, IfOk, OnOk};
ghost use Rattle.std.specs.List.{AllByRecursion};
ghost use Rattle.chunk_store.specs.Placing.{AreApart, gather_placed, placed_behind, span_at};

use crate::keys::Key;
use chunk_region::{Mark, Span};
use std::alloc::{AllocError, Global};
use std::collections::HashMap;
use std::marker::Model;
use tuple_codec::Address;

/// A chunk in a region: its address, where its bytes lie, and where the writing ended just before them.
#[derive(Clone, Copy)]
pub(crate) struct Placed {
    pub(crate) address: Address,
    pub(crate) span: Span,
    pub(crate) before: Mark,
}

impl Placed {
    /// The chunk where so many pages come before those that it lies on.
    fn behind(self, pages: u32) -> Placed
        requires { self.span.page + pages < 2 ^ 32 }
        ensures { result ≡ placed_behind pages self }
    {
        let page = self.span.page + pages;
        Placed {
            address: self.address,
            span: Span { page, ..self.span },
            before: self.before,
        }
    }
}

/// The most chunks that a copy seeks from the front, without a table.
const FEW: usize = 8;

/// Chunks in the order in which they were placed, with a table that finds them by address. A copy of a few chunks has no table until chunks are
/// added: what is sealed by one statement is a few chunks, and soon joined to others.
#[derive(Drop)]
pub(crate) struct Index {
    placed: Vec<Placed>,
    spans: HashMap<Key, Span>,
    has_table: bool,
}

impl Model for Index {
    ghost use Rattle.std.specs.Prelude.{◌-◌, min, bytes_eq, vec_len};
    ghost use Rattle.std.specs.Vec.{vec_capacity};
    ghost use Rattle.std.specs.HashMap.{get, spare};
    ghost use Rattle.chunk_store.specs.Placing.{Indexed, IsIndex};

    ghost Value = { Indexed };

    ghost view = { λ i. record { placed = i.placed.items; room = min (vec_capacity i.placed - vec_len i.placed) (spare i.spans); has_table = i.has_table } };

    ghost invariant = { λ i. IsIndex i.placed.items i.has_table (get bytes_eq i.spans) };
}

impl Index {
    pub(crate) fn new(alloc: Global) -> Index
        ensures { result.placed ≡ [] }
    {
        Index {
            placed: Vec::new(alloc),
            spans: HashMap::new(alloc),
            has_table: true,
        }
    }

    pub(crate) fn allocator(&self) -> Global {
        *self.placed.allocator()
    }

    /// How many chunks it has.
    pub(crate) fn len(&self) -> usize
        ensures { result ≡ length self.now.placed }
    {
        self.placed.len()
    }

    /// The chunk at a place, in the order in which they came.
    pub(crate) fn at(&self, place: usize) -> Placed
        requires { place < length self.now.placed }
        ensures at { slice_get self.now.placed place ≡ Some result }
        ensures apart { AreApart self.now.placed }
    {
        self.placed[place]
    }

    /// Where the chunk of this address lies.
    pub(crate) fn find(&self, address: &Address) -> Option<Span>
        ensures { result ≡ span_at self.now.placed address.now.0 }
    {
        if self.has_table {
            self.spans.get(&Key::of(address)).copied()
        } else {
            span_in(&self.placed, address)
        }
    }

    /// Takes the memory for so many chunks more.
    pub(crate) fn make_room(&mut self, chunks: usize) -> Result<(), AllocError>
        ensures same { self.new.placed ≡ self.old.placed }
        ensures room { OnOk result (chunks ≤ self.new.room) }
        ensures table { OnOk result (self.new.has_table ≡ true) }
    {
        self.make_table()?;
        self.placed.reserve(chunks)?;
        self.spans.reserve(chunks)
    }

    /// Makes the table, where there is none.
    fn make_table(&mut self) -> Result<(), AllocError>
        ensures same { self.new.placed ≡ self.old.placed }
        ensures table { OnOk result (self.new.has_table ≡ true) }
    {
        if !self.has_table {
            let whole = self.with_table(0)?;
            *self = whole;
        }
        Ok(())
    }

    /// Adds a chunk at the end.
    pub(crate) fn push(&mut self, chunk: Placed)
        requires table { self.old.has_table ≡ true }
        requires room { 0 < self.old.room }
        requires absent { span_at self.old.placed chunk.address.0 ≡ None }
        ensures { self.new.placed ≡ self.old.placed ++ chunk ∷ [] }
    {
        self.placed.push_reserved(chunk);
        match self.spans.insert(Key::of(&chunk.address), chunk.span) {
            Ok(_) => {}
            Err(_) => unreachable!(),
        }
    }

    /// Adds a chunk at the end, unless one of its address is there: whether it was added. The table is searched once.
    pub(crate) fn add(&mut self, chunk: Placed) -> bool
        requires table { self.old.has_table ≡ true }
        requires room { 0 < self.old.room }
        ensures absent { result ≡ true → span_at self.old.placed chunk.address.0 ≡ None }
        ensures longer { result ≡ true → self.new.placed ≡ self.old.placed ++ chunk ∷ [] }
        ensures there { result ≡ false → is_some (span_at self.old.placed chunk.address.0) ≡ true }
        ensures same { result ≡ false → self.new.placed ≡ self.old.placed }
    {
        match self.spans.insert(Key::of(&chunk.address), chunk.span) {
            Ok(None) => {
                self.placed.push_reserved(chunk);
                true
            }
            Ok(Some(span)) => match self.spans.insert(Key::of(&chunk.address), span) {
                Ok(_) => false,
                Err(_) => unreachable!(),
            },
            Err(_) => unreachable!(),
        }
    }

    /// A copy, with room for so many chunks more where they come to more than a few.
    pub(crate) fn copied(&self, more: usize) -> Result<Index, AllocError>
        ensures { IfOk result (λ copy. copy.placed ≡ self.now.placed) }
    {
        if self.len().saturating_add(more) <= FEW {
            self.without_table()
        } else {
            self.with_table(more)
        }
    }

    fn without_table(&self) -> Result<Index, AllocError>
        ensures { IfOk result (λ copy. copy.placed ≡ self.now.placed) }
    {
        let alloc = self.allocator();
        Ok(Index {
            placed: Vec::from_slice(alloc, &self.placed)?,
            spans: HashMap::new(alloc),
            has_table: false,
        })
    }

    fn with_table(&self, more: usize) -> Result<Index, AllocError>
        ensures same { IfOk result (λ copy. copy.placed ≡ self.now.placed) }
        ensures table { IfOk result (λ copy. copy.has_table ≡ true) }
    {
        let alloc = self.allocator();
        let count = self.len().saturating_add(more);
        let mut placed = Vec::with_capacity(alloc, count)?;
        let mut spans = HashMap::with_capacity(alloc, count)?;
        for at in 0..self.len() {
            let chunk = self.at(at);
            placed.push(chunk)?;
            spans.insert(Key::of(&chunk.address), chunk.span)?;
        }
        Ok(Index {
            placed,
            spans,
            has_table: true,
        })
    }

    /// Adds the chunks of another index whose addresses aren't there, where so many pages come before those that they
    /// lie on.
    pub(crate) fn join(&mut self, other: &Index, pages: u32) -> Result<(), AllocError>
        requires { AllByRecursion (λ c. c.span.page + pages < 2 ^ 32) other.now.placed }
        ensures { OnOk result (self.new.placed ≡ gather_placed self.old.placed (map (placed_behind pages) other.now.placed)) }
    {
        for at in 0..other.len() {
            self.make_room(1)?;
            let _added = self.add(other.at(at).behind(pages));
        }
        Ok(())
    }

    /// Takes away all chunks but the first so many.
    pub(crate) fn cut(&mut self, count: usize)
        ensures { self.new.placed ≡ take count self.old.placed }
    {
        'chunks: while self.placed.len() > count {
            if let Some(last) = self.placed.pop() {
                self.spans.remove(&Key::of(&last.address));
            }
        }
    }
}

/// Where the chunk of an address lies, sought from the front.
fn span_in(placed: &[Placed], address: &Address) -> Option<Span>
    ensures { result ≡ span_at placed.now address.now.0 }
{
    for chunk in placed {
        if chunk.address == *address {
            return Some(chunk.span);
        }
    }
    None
}
