//! Two walks side by side.

ghost use Rattle.std.specs.Prelude.{◌≡◌, ◌≢◌, ◌≤◌, suc, ◌∷◌, ◌++◌, ◌+◌, ◌*◌, [], List, Some, IfOk, OnOk, OnErr, MatchOption, drop};
ghost use Rattle.tuple_codec.specs.Nodes.{Item, Node, leaf_item};
ghost use Rattle.tuple_codec.specs.Edits.{added, changed, removed, replaced};
ghost use Rattle.chunk_store.specs.Drafts.{chunks_of};
ghost use Rattle.chunk_store.specs.Standing.{IsTree};
ghost use Rattle.prolly_tree.specs.Found.{nodes_in};
ghost use Rattle.prolly_tree.specs.Standing.{IsStored};
ghost use Rattle.prolly_tree.specs.Lists.{StandsForRows};
ghost use Rattle.prolly_tree.specs.Heads.{item_of, level_of};
ghost use Rattle.pair_walk.specs.Counts.{counted};
ghost use Rattle.pair_walk.specs.Pairs.{AreAlike, differing_from};
ghost use Rattle.pair_walk.specs.Turns.{IsTurn};
ghost use Rattle.pair_walk.specs.Heads.{AreHeads, BeginsComparing, IsFirst, descended, skipped};

use crate::reads::ReadCount;
use chunk_store::Draft;
use prolly_tree::{Walk, WalkHead};
use std::alloc::{AllocError, Global};
use std::cmp::Ordering;
use std::marker::Model;
use tuple_codec::{Address, Blob, Digester, ItemChange};

/// The keys, rising, at which the rows of two trees differ, with the value of each tree there.
///
/// Each node that is read raises `reads` by one; both roots are read where their addresses differ. Nodes of one address are
/// never read, wherever both walks come to them, so what is read are nodes that differ and those above them. Where memory is
/// wanting, `reads` is as before.
pub fn changes<D: Digester>(
    alloc: Global,
    draft: &Draft<D>,
    old: &Address,
    new: &Address,
    reads: &mut ReadCount,
) -> Result<Vec<ItemChange>, AllocError>
    requires old_tree { StandsForRows D.address (chunks_of draft.now.chunks) old.now.0 }
    requires new_tree { StandsForRows D.address (chunks_of draft.now.chunks) new.now.0 }
    ensures changes { (rows others : List Item) → IsTree D.address (chunks_of draft.now.chunks) old.now.0 rows
        → IsTree D.address (chunks_of draft.now.chunks) new.now.0 others → IfOk result (λ list. list.items ≡ changed rows others) }
    ensures same { old.now.0 ≡ new.now.0 → reads.new ≡ reads.old }
    ensures reads { (node other : Node) → IsStored (chunks_of draft.now.chunks) old.now.0 node
        → IsStored (chunks_of draft.now.chunks) new.now.0 other → AreAlike (nodes_in (chunks_of draft.now.chunks)) node other
        → old.now.0 ≢ new.now.0
        → OnOk result (reads.new.0 ≡ counted reads.old.0 (2 * differing_from (nodes_in (chunks_of draft.now.chunks)) node other)) }
    ensures rises { old.now.0 ≢ new.now.0 → OnOk result (counted reads.old.0 2 ≤ reads.new.0) }
    ensures err { OnErr result (reads.new ≡ reads.old) }
{
    if old == new {
        return Ok(Vec::new(alloc));
    }
    let mut comparison = Comparison::new(alloc, draft, old, new, *reads)?;
    'turns: while let Some(heads) = comparison.heads() {
        comparison.turn(heads)?;
    }
    let Comparison {
        found,
        reads: taken,
        ..
    } = comparison;
    *reads = taken;
    Ok(found)
}

/// What two walks have first, where one has something left.
enum Heads<'a> {
    Old(WalkHead<'a>),
    New(WalkHead<'a>),
    Both(WalkHead<'a>, WalkHead<'a>),
}

/// Two walks, what was found to differ before them, and how many nodes they have read.
#[derive(Drop)]
struct Comparison<'a, D: Digester> {
    alloc: Global,
    old_walk: Walk<'a, D>,
    new_walk: Walk<'a, D>,
    found: Vec<ItemChange>,
    reads: ReadCount,
}

impl<'a, D: Digester> Model for Comparison<'a, D> {
    ghost use Rattle.pair_walk.specs.Turns.{Compared};

    ghost Value = { Compared };

    ghost view = { λ c. record { old_walk = c.old_walk; new_walk = c.new_walk; found = c.found.items; reads = c.reads.0 } };
}

impl<'a, D: Digester> Comparison<'a, D> {
    /// The beginning: both roots are read.
    fn new(
        alloc: Global,
        draft: &'a Draft<D>,
        old: &Address,
        new: &Address,
        reads: ReadCount,
    ) -> Result<Comparison<'a, D>, AllocError>
        requires old_tree { StandsForRows D.address (chunks_of draft.now.chunks) old.now.0 }
        requires new_tree { StandsForRows D.address (chunks_of draft.now.chunks) new.now.0 }
        ensures begins { IfOk result (BeginsComparing D.address draft.now.chunks old.now.0 new.now.0 reads.0) }
    {
        let mut reads = reads;
        reads.raise();
        let old_walk = Walk::new(alloc, draft, old)?;
        reads.raise();
        let new_walk = Walk::new(alloc, draft, new)?;
        Ok(Comparison {
            alloc,
            old_walk,
            new_walk,
            found: Vec::new(alloc),
            reads,
        })
    }

    /// What comes first on both sides; none at the end of both.
    fn heads(&self) -> Option<Heads<'a>>
        ensures { MatchOption result ((self.now.old_walk.front ≡ []) × (self.now.new_walk.front ≡ [])) (AreHeads self.now.old_walk.front self.now.new_walk.front) }
    {
        match (self.old_walk.head(), self.new_walk.head()) {
            (None, None) => None,
            (Some(old), None) => Some(Heads::Old(old)),
            (None, Some(new)) => Some(Heads::New(new)),
            (Some(old), Some(new)) => Some(Heads::Both(old, new)),
        }
    }

    /// Goes on by what comes first.
    fn turn(&mut self, heads: Heads<'a>) -> Result<(), AllocError>
        requires heads { AreHeads self.old.old_walk.front self.old.new_walk.front heads }
        requires parts { self.old.new_walk.parts ≡ self.old.old_walk.parts }
        ensures { OnOk result (IsTurn self.old self.new) }
    {
        match heads {
            Heads::Old(head) => self.go_on_old(head),
            Heads::New(head) => self.go_on_new(head),
            Heads::Both(old, new) => self.compare(old, new),
        }
    }

    /// Goes on where only the old side has something left.
    fn go_on_old(&mut self, head: WalkHead<'a>) -> Result<(), AllocError>
        requires old { IsFirst self.old.old_walk.front head }
        requires new { self.old.new_walk.front ≡ [] }
        ensures { OnOk result (IsTurn self.old self.new) }
    {
        match head {
            WalkHead::Row { key, value } => self.remove(key, value),
            WalkHead::Below { .. } => {
                self.open_old();
                Ok(())
            }
        }
    }

    /// Goes on where only the new side has something left.
    fn go_on_new(&mut self, head: WalkHead<'a>) -> Result<(), AllocError>
        requires old { self.old.old_walk.front ≡ [] }
        requires new { IsFirst self.old.new_walk.front head }
        ensures { OnOk result (IsTurn self.old self.new) }
    {
        match head {
            WalkHead::Row { key, value } => self.add(key, value),
            WalkHead::Below { .. } => {
                self.open_new();
                Ok(())
            }
        }
    }

    /// Goes on where both sides have something left: the higher is opened, and what stands at one level is compared.
    fn compare(&mut self, old: WalkHead<'a>, new: WalkHead<'a>) -> Result<(), AllocError>
        requires old { IsFirst self.old.old_walk.front old }
        requires new { IsFirst self.old.new_walk.front new }
        requires parts { self.old.new_walk.parts ≡ self.old.old_walk.parts }
        ensures { OnOk result (IsTurn self.old self.new) }
    {
        match (old, new) {
            (
                WalkHead::Row { key, value },
                WalkHead::Row {
                    key: other,
                    value: new,
                },
            ) => self.compare_rows(key, value, other, new),
            (
                WalkHead::Below { level, address, .. },
                WalkHead::Below {
                    level: other,
                    address: new,
                    ..
                },
            ) => {
                self.compare_nodes((level, address), (other, new));
                Ok(())
            }
            (WalkHead::Below { .. }, WalkHead::Row { .. }) => {
                self.open_old();
                Ok(())
            }
            (WalkHead::Row { .. }, WalkHead::Below { .. }) => {
                self.open_new();
                Ok(())
            }
        }
    }

    /// Goes past the row with the smaller key, or past both where the keys are equal.
    fn compare_rows(
        &mut self,
        key: &[u8],
        value: &[u8],
        other: &[u8],
        new: &[u8],
    ) -> Result<(), AllocError>
        requires old { self.old.old_walk.front ≡ (0, leaf_item key.now value.now) ∷ drop 1 self.old.old_walk.front }
        requires new { self.old.new_walk.front ≡ (0, leaf_item other.now new.now) ∷ drop 1 self.old.new_walk.front }
        requires parts { self.old.new_walk.parts ≡ self.old.old_walk.parts }
        ensures { OnOk result (IsTurn self.old self.new) }
    {
        match other.cmp(key) {
            Ordering::Less => self.add(other, new),
            Ordering::Greater => self.remove(key, value),
            Ordering::Equal if new == value => {
                self.skip_both();
                Ok(())
            }
            Ordering::Equal => self.replace(key, value, new),
        }
    }

    /// Goes past two nodes of one level and one address, which have the same rows below; else opens the higher, or both.
    fn compare_nodes(&mut self, old: (u8, Address), new: (u8, Address))
        requires old { (item : Item) × (item.body ≡ old.1.0) × (self.old.old_walk.front ≡ (suc old.0, item) ∷ drop 1 self.old.old_walk.front) }
        requires new { (item : Item) × (item.body ≡ new.1.0) × (self.old.new_walk.front ≡ (suc new.0, item) ∷ drop 1 self.old.new_walk.front) }
        requires parts { self.old.new_walk.parts ≡ self.old.old_walk.parts }
        ensures { IsTurn self.old self.new }
    {
        match old.0.cmp(&new.0) {
            Ordering::Less => self.open_new(),
            Ordering::Greater => self.open_old(),
            Ordering::Equal if old.1 == new.1 => self.skip_both(),
            Ordering::Equal => {
                self.open_old();
                self.open_new();
            }
        }
    }

    /// Goes past a row that the new tree has not.
    fn remove(&mut self, key: &[u8], value: &[u8]) -> Result<(), AllocError>
        ensures { OnOk result (self.new ≡ record self.old { old_walk = skipped self.old.old_walk; found = self.old.found ++ removed (leaf_item key.now value.now) ∷ [] }) }
    {
        let change = ItemChange {
            key: blob(self.alloc, key)?,
            old: Some(blob(self.alloc, value)?),
            new: None,
        };
        self.found.push(change)?;
        self.old_walk.skip();
        Ok(())
    }

    /// Goes past a row that the old tree has not.
    fn add(&mut self, key: &[u8], value: &[u8]) -> Result<(), AllocError>
        ensures { OnOk result (self.new ≡ record self.old { new_walk = skipped self.old.new_walk; found = self.old.found ++ added (leaf_item key.now value.now) ∷ [] }) }
    {
        let change = ItemChange {
            key: blob(self.alloc, key)?,
            old: None,
            new: Some(blob(self.alloc, value)?),
        };
        self.found.push(change)?;
        self.new_walk.skip();
        Ok(())
    }

    /// Goes past rows of one key, whose values differ.
    fn replace(&mut self, key: &[u8], value: &[u8], new: &[u8]) -> Result<(), AllocError>
        ensures { OnOk result (self.new ≡ record self.old {
          old_walk = skipped self.old.old_walk;
          new_walk = skipped self.old.new_walk;
          found = self.old.found ++ replaced (leaf_item key.now value.now) (leaf_item key.now new.now) ∷ [];
        }) }
    {
        let change = ItemChange {
            key: blob(self.alloc, key)?,
            old: Some(blob(self.alloc, value)?),
            new: Some(blob(self.alloc, new)?),
        };
        self.found.push(change)?;
        self.skip_both();
        Ok(())
    }

    fn skip_both(&mut self)
        ensures { self.new ≡ record self.old { old_walk = skipped self.old.old_walk; new_walk = skipped self.old.new_walk } }
    {
        self.old_walk.skip();
        self.new_walk.skip();
    }

    /// Reads the node that is first on the old side.
    fn open_old(&mut self)
        ensures { self.new ≡ record self.old { old_walk = descended self.old.old_walk; reads = counted self.old.reads 1 } }
    {
        self.reads.raise();
        self.old_walk.open();
    }

    /// Reads the node that is first on the new side.
    fn open_new(&mut self)
        ensures { self.new ≡ record self.old { new_walk = descended self.old.new_walk; reads = counted self.old.reads 1 } }
    {
        self.reads.raise();
        self.new_walk.open();
    }
}

fn blob(alloc: Global, bytes: &[u8]) -> Result<Blob, AllocError>
    ensures { IfOk result (λ blob. blob ≡ bytes.now) }
{
    Ok(Blob::from_vec(Vec::from_slice(alloc, bytes)?))
}
