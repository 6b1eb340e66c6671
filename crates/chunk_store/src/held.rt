//! Segments in the lists of stores.

ghost use Rattle.std.specs.Prelude.{◌≡◌, ◌≤◌, ◌++◌, drop, length, option_map, IfOk, IfSome};
ghost use Rattle.std.specs.Arc.{arc_value};
ghost use Rattle.chunk_store.specs.Building.{gather};
ghost use Rattle.chunk_store.specs.Chunks.{chunk_bytes};
ghost use Rattle.chunk_store.specs.Stores.{is_within};

use crate::segments::Segment;
use smallvec::SmallVec;
use std::alloc::{AllocError, Global};
use std::default::MadeWith;
use std::marker::Model;
use std::sync::Arc;
use tuple_codec::Address;

/// A segment that a store holds, maybe with other stores. A contract sees its chunks.
#[derive(Drop)]
pub(crate) struct HeldSegment {
    // none in the places of a list that no segment has taken
    segment: Option<Arc<Segment>>,
}

/// Segments, of which the first eight take no memory for their list: a store that is tidied has few.
pub(crate) type SegmentList = SmallVec<HeldSegment, 8>;

impl Model for HeldSegment {
    ghost use Rattle.std.specs.Prelude.{List, []};
    ghost use Rattle.std.specs.Arc.{arc_value};
    ghost use Rattle.std.specs.Option.{option_map_or};
    ghost use Rattle.chunk_store.specs.Chunks.{Chunk};

    ghost Value = { List Chunk };

    ghost view = { λ held. option_map_or (λ segment. arc_value {X = List Chunk} segment) held.segment [] };
}

impl MadeWith<Global> for HeldSegment {
    fn made_with(_: Global) -> HeldSegment {
        HeldSegment { segment: None }
    }
}

impl HeldSegment {
    pub(crate) fn new(segment: Arc<Segment>) -> HeldSegment
        ensures { result ≡ arc_value segment }
    {
        HeldSegment {
            segment: Some(segment),
        }
    }

    /// The same segment for another store.
    pub(crate) fn share(&self) -> Result<HeldSegment, AllocError>
        ensures { IfOk result (λ held. held ≡ self.now) }
    {
        let segment = match &self.segment {
            Some(segment) => Some(Arc::try_clone(segment)?),
            None => None,
        };
        Ok(HeldSegment { segment })
    }

    /// How many chunks it has.
    pub(crate) fn len(&self) -> usize
        ensures { result ≡ length self.now }
    {
        match &self.segment {
            Some(segment) => segment.len(),
            None => 0,
        }
    }

    /// The bytes at an address.
    pub(crate) fn get(&self, address: &Address) -> Option<&[u8]>
        ensures { option_map (λ bytes. bytes.now) result ≡ chunk_bytes self.now address.now.0 }
    {
        match &self.segment {
            Some(segment) => segment.get(address),
            None => None,
        }
    }

    /// Whether each of its addresses is one of another segment, too.
    pub(crate) fn is_within(&self, other: &Segment) -> bool
        ensures { result ≡ is_within self.now other.now }
    {
        match &self.segment {
            Some(segment) => segment.is_within(other),
            None => true,
        }
    }

    /// Where its chunks begin in another segment, if they all stand there just before a place.
    pub(crate) fn place_before(&self, other: &Segment, end: usize) -> Option<usize>
        requires { end ≤ length other.now }
        ensures same { IfSome result (λ start. drop start other.now ≡ self.now ++ drop end other.now) }
        ensures before { IfSome result (λ start. start ≤ end) }
    {
        match &self.segment {
            Some(segment) => segment.place_before(other, end),
            None => Some(end),
        }
    }

    /// A segment's chunks, and behind them those of this one whose addresses it hasn't.
    pub(crate) fn joined_to(&self, front: Segment) -> Result<Segment, AllocError>
        ensures { IfOk result (λ both. both ≡ gather front self.now) }
    {
        match &self.segment {
            Some(segment) => front.joined(segment),
            None => Ok(front),
        }
    }
}
