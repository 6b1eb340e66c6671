//! A store: segments, shared with those who look at it.

ghost use Rattle.std.specs.Prelude.{ℕ, ◌≡◌, ◌+◌, ◌*◌, ◌<◌, nat_lt, if◌then◌else◌, ◌≤◌, [], ◌∷◌, ◌++◌, length, min, take, drop, option_map, IfOk, IfErr, OnOk, OnErr, IsErrOf};
ghost use Rattle.std.specs.Arc.{arc_value};
ghost use Rattle.smallvec.specs.SmallVec.{small_vec_len};
ghost use Rattle.chunk_store.specs.Chunks.{Agree, IsSingle, Lists, chunk_bytes};
ghost use Rattle.chunk_store.specs.Clashes.{Differ, IsCause};
ghost use Rattle.chunk_store.specs.Building.{gather};
ghost use Rattle.chunk_store.specs.Stores.{AreFew, AreSome, IsMatched, IsUnion, all_chunks, drop_held, joined, joins, tidied, with_segment};

use crate::faults::{PutFault, is_there};
use crate::held::{HeldSegment, SegmentList};
use crate::segments::Segment;
use std::alloc::{AllocError, Global};
use std::marker::Model;
use std::sync::Arc;
use tuple_codec::Address;

/// A finite map from addresses to bytes, made of segments. A contract sees the list of its chunks and the number of
/// segments for which room is kept.
#[derive(Drop)]
pub struct Store {
    segments: SegmentList,
}

/// Which chunks of a segment are the store's: those behind its first `own` ones are those of the segments from `from` on.
#[derive(Clone, Copy)]
struct Matched {
    own: usize,
    from: usize,
}

impl Model for Store {
    ghost use Rattle.std.specs.Prelude.{◌-◌, length};
    ghost use Rattle.chunk_store.specs.Chunks.{IsSingle};
    ghost use Rattle.chunk_store.specs.Stores.{AreSome, Stored, joined};

    ghost Value = { Stored };

    ghost view = { λ s. record { segments = s.segments.items; room = s.segments.capacity - length s.segments.items } };

    ghost invariant = { λ s. IsSingle (joined s.segments.items) × AreSome s.segments.items };
}

impl Store {
    /// A store without a chunk.
    pub fn new(alloc: Global) -> Store
        ensures { result.segments ≡ [] }
    {
        Store {
            segments: SegmentList::new(alloc),
        }
    }

    pub(crate) fn allocator(&self) -> Global {
        *self.segments.allocator()
    }

    /// What every store has, for proofs: chunks of one address have the same bytes, and no segment is empty. It does
    /// nothing.
    pub fn tell(&self)
        ensures single { IsSingle (all_chunks self.now) }
        ensures some { AreSome self.now.segments }
    {
        let _segments = &self.segments;
    }

    /// Takes the memory for so many segments more, so that `append` finds it.
    pub fn reserve(&mut self, segments: u32) -> Result<(), AllocError>
        ensures same { self.new.segments ≡ self.old.segments }
        ensures room { OnOk result (segments ≤ self.new.room) }
        ensures kept { self.old.room ≤ self.new.room }
    {
        self.segments.reserve(segments as usize)
    }

    /// The same chunks for another holder, without a copy of their bytes.
    pub fn share(&self) -> Result<Store, AllocError>
        ensures { IfOk result (λ store. store.segments ≡ self.now.segments) }
    {
        let mut segments = SegmentList::with_capacity(self.allocator(), self.segments.len())?;
        for segment in self.segments.as_slice() {
            segments.push(segment.share()?)?;
        }
        Ok(Store { segments })
    }

    /// The bytes at an address, by one look-up in each segment, the last one first: what was written last is read most.
    pub fn get(&self, address: &Address) -> Option<&[u8]>
        ensures held { option_map (λ bytes. bytes.now) result ≡ chunk_bytes (all_chunks self.now) address.now.0 }
        ensures single { IsSingle (all_chunks self.now) }
    {
        let segments = self.segments.as_slice();
        let mut at = segments.len();
        'segments: while at > 0 {
            at -= 1;
            let segment = &segments[at];
            if let Some(bytes) = segment.get(address) {
                return Some(bytes);
            }
        }
        None
    }

    /// How many segments there are, or 2^32 - 1 where there are more.
    pub fn segments(&self) -> u32
        ensures { result ≡ min (length self.now.segments) 4294967295 }
    {
        u32::try_from(self.segments.len()).unwrap_or(u32::MAX)
    }

    /// Adds a segment's chunks. A collision shows the bytes held here first.
    ///
    /// Segments at the end whose chunks the new one has are dropped, and an empty one isn't added: so a store to which
    /// each segment was appended that a draft over it was sealed to has few segments. In room that was reserved it takes
    /// no memory but to hold a collision. What such a segment has of this store's last segments is compared with them
    /// place by place; only its other chunks are looked up.
    pub fn append(&mut self, segment: Arc<Segment>) -> Result<(), PutFault>
        ensures segments { OnOk result (self.new.segments ≡ with_segment (arc_value segment) self.old.segments) }
        ensures union { OnOk result (IsUnion (all_chunks self.old) (arc_value segment) (all_chunks self.new)) }
        ensures agree { OnOk result (Agree (chunk_bytes (all_chunks self.old)) (chunk_bytes (arc_value segment))) }
        ensures room { self.old.room ≤ self.new.room + 1 }
        ensures cause { IfErr result (IsCause (chunk_bytes (all_chunks self.old)) (chunk_bytes (arc_value segment))) }
        ensures memory { 0 < self.old.room → IsErrOf result PutFault.Memory → Differ (chunk_bytes (all_chunks self.old)) (chunk_bytes (arc_value segment)) }
        ensures same { OnErr result (self.new.segments ≡ self.old.segments) }
        ensures kept { OnErr result (self.old.room ≤ self.new.room) }
    {
        let from = self.kept_beside(&segment)?;
        if segment.len() == 0 {
            return Ok(());
        }
        replace_from(&mut self.segments, from, HeldSegment::new(segment))?;
        Ok(())
    }

    /// Joins the last segments, from the first one on that has less than twice as many chunks as come after it, so that a store to which segments
    /// without others' chunks are appended has few. What the store has stays. The pages of the joined segments are shared.
    ///
    /// `Ok` says that no such segments are left; where memory is wanting none are joined.
    pub fn tidy(&mut self) -> Result<(), AllocError>
        ensures keeps { Lists (all_chunks self.old) (all_chunks self.new) }
        ensures adds_none { Lists (all_chunks self.new) (all_chunks self.old) }
        ensures room { self.old.room ≤ self.new.room }
        ensures joined { OnOk result (self.new.segments ≡ tidied self.old.segments) }
        ensures few { OnOk result (AreFew self.new.segments) }
        ensures same { OnErr result (self.new.segments ≡ self.old.segments) }
    {
        let from = self.joined_from(0);
        if from < self.segments.len() {
            let whole = self.joined_last(from)?;
            self.segments.truncate(from);
            self.segments.push_reserved(HeldSegment::new(whole));
        }
        Ok(())
    }

    /// The segments from one on as one.
    fn joined_last(&self, from: usize) -> Result<Arc<Segment>, AllocError>
        requires { from ≤ length self.now.segments }
        ensures { IfOk result (λ whole. arc_value whole ≡ gather [] (joined (drop from self.now.segments))) }
    {
        let alloc = self.allocator();
        let empty = Segment::empty(alloc, self.count_from(from))?;
        let whole = self.joined_by(from, empty)?;
        Ok(Arc::new(alloc, whole)?)
    }

    /// How many segments stay where another one is appended, which must not have other bytes at some address.
    fn kept_beside(&self, segment: &Segment) -> Result<usize, PutFault>
        ensures kept { IfOk result (λ kept. take kept self.now.segments ≡ drop_held segment.now self.now.segments) }
        ensures most { IfOk result (λ kept. kept ≤ length self.now.segments) }
        ensures agree { OnOk result (Agree (chunk_bytes (all_chunks self.now)) (chunk_bytes segment.now)) }
        ensures cause { IfErr result (IsCause (chunk_bytes (all_chunks self.now)) (chunk_bytes segment.now)) }
        ensures differ { OnErr result (Differ (chunk_bytes (all_chunks self.now)) (chunk_bytes segment.now)) }
    {
        let matched = self.matching(segment);
        self.allows(segment, matched)?;
        Ok(self.kept(segment, matched))
    }

    /// How many chunks of a segment aren't those of this store's last segments, in their order, and which these are. A
    /// segment that was sealed over this store ends with what was joined to it, so that nothing of this needs a look-up.
    fn matching(&self, other: &Segment) -> Matched
        ensures { IsMatched other.now self.now.segments result.own result.from }
    {
        let mut own = other.len();
        let mut from = self.segments.len();
        'segments: while from > 0 {
            let segment = &self.segments[from - 1];
            match segment.place_before(other, own) {
                Some(start) => own = start,
                None => return Matched { own, from },
            }
            from -= 1;
        }
        Matched { own, from }
    }

    /// How many segments stay where those at the end are dropped whose chunks another one has.
    fn kept(&self, other: &Segment, matched: Matched) -> usize
        requires { IsMatched other.now self.now.segments matched.own matched.from }
        ensures kept { take result self.now.segments ≡ drop_held other.now self.now.segments }
        ensures most { result ≤ length self.now.segments }
    {
        let mut kept = matched.from;
        'segments: while kept > 0 {
            let segment = &self.segments[kept - 1];
            if !segment.is_within(other) {
                return kept;
            }
            kept -= 1;
        }
        kept
    }

    /// The segments that are joined to so many new chunks: from which one on.
    pub(crate) fn joined_from(&self, more: usize) -> usize
        ensures from { drop result self.now.segments ≡ joins more self.now.segments }
        ensures most { result ≤ length self.now.segments }
    {
        let mut from = self.segments.len();
        let mut at = self.segments.len();
        let mut after = more;
        'segments: while at > 0 {
            at -= 1;
            let segment = &self.segments[at];
            let size = segment.len();
            from = earlier(is_few(size, after), at, from);
            after = after.saturating_add(size);
        }
        from
    }

    /// How many chunks the segments from one on have, or 2^64 - 1 where they have more.
    pub(crate) fn count_from(&self, from: usize) -> usize
        requires { from ≤ length self.now.segments }
    {
        let mut count: usize = 0;
        for at in from..self.segments.len() {
            let segment = &self.segments[at];
            count = count.saturating_add(segment.len());
        }
        count
    }

    /// A segment, joined by the segments from one on.
    pub(crate) fn joined_by(&self, from: usize, own: Segment) -> Result<Segment, AllocError>
        requires { from ≤ length self.now.segments }
        ensures { IfOk result (λ whole. whole ≡ gather own (joined (drop from self.now.segments))) }
    {
        let mut whole = own;
        for at in from..self.segments.len() {
            let segment = &self.segments[at];
            whole = segment.joined_to(whole)?;
        }
        Ok(whole)
    }

    /// Refuses a segment that has other bytes than this store at some address.
    fn allows(&self, segment: &Segment, matched: Matched) -> Result<(), PutFault>
        requires { IsMatched segment.now self.now.segments matched.own matched.from }
        ensures agree { OnOk result (Agree (chunk_bytes (all_chunks self.now)) (chunk_bytes segment.now)) }
        ensures cause { IfErr result (IsCause (chunk_bytes (all_chunks self.now)) (chunk_bytes segment.now)) }
        ensures differ { OnErr result (Differ (chunk_bytes (all_chunks self.now)) (chunk_bytes segment.now)) }
    {
        self.tell();
        for at in 0..matched.own {
            let (address, bytes) = segment.chunk(at);
            is_there(self.allocator(), &address, self.get(&address), bytes)?;
        }
        Ok(())
    }
}

/// Whether a segment has less than twice as many chunks as come after it, the number of which is cut off at 2^64 - 1.
fn is_few(size: usize, after: usize) -> bool
    ensures { (whole : ℕ) → after ≡ min whole 18446744073709551615 → result ≡ nat_lt size (2 * whole) }
{
    size / 2 < after
}

fn earlier(is_joined: bool, at: usize, from: usize) -> usize
    ensures { result ≡ (if is_joined then at else from) }
{
    if is_joined { at } else { from }
}

/// Puts a segment in place of those from one on, or changes nothing.
fn replace_from(
    segments: &mut SegmentList,
    kept: usize,
    segment: HeldSegment,
) -> Result<(), AllocError>
    requires { kept ≤ length segments.old.items }
    ensures ok { OnOk result (segments.new.items ≡ take kept segments.old.items ++ segment ∷ []) }
    ensures err { OnErr result (segments.new.items ≡ segments.old.items) }
    ensures full { OnErr result (segments.old.capacity ≤ small_vec_len segments.old) }
    ensures capacity { segments.old.capacity ≤ segments.new.capacity }
{
    segments.reserve(1)?;
    segments.truncate(kept);
    segments.push_reserved(segment);
    Ok(())
}
