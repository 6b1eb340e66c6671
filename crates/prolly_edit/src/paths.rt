//! What a walk through a tree has left, apart from the draft that changes meanwhile.

ghost use Rattle.std.specs.Prelude.{◌≡◌, ◌<◌, ◌≤◌, ◌-◌, ◌∷◌, ◌++◌, [], ℕ, suc, false, List, MatchOption, IfOk, IfSome, OnOk, length};
ghost use Rattle.tuple_codec.specs.Nodes.{IsNode, Node, ends, node_bytes};
ghost use Rattle.node_format.specs.Outlasting.{Outlasts};
ghost use Rattle.prolly_edit.specs.Keeping.{StaysOpen};
ghost use Rattle.prolly_edit.specs.Names.{item_of};
ghost use Rattle.prolly_edit.specs.Fronts.{is_over};
ghost use Rattle.prolly_tree.specs.Fronts.{on_level};

use node_chunker::copied_into;
use node_format::{KnownNode, RefItem, first_name, name_size, steps_of};
use smallvec::SmallVec;
use std::alloc::{AllocError, Global};
use std::default::MadeWith;
use std::marker::{Model, PhantomData};
use tuple_codec::Digester;

/// The name of a node, and how many steps it outlasts where it stands, as its old place tells.
#[derive(Drop)]
pub(crate) struct Name {
    pub item: RefItem,
    pub steps: u32,
}

/// The names of nodes of one level that are left of an inner node, in the node's bytes.
#[derive(Drop)]
pub(crate) struct Step<D: Digester> {
    level: u8,
    taken: u16,
    left: u16,
    // where the first of those left begins
    start: usize,
    bytes: Vec<u8>,
    digester: PhantomData<D>,
}

impl<D: Digester> Model for Step<D> {
    ghost use Rattle.tuple_codec.specs.Nodes.{Node};
    ghost use Rattle.prolly_edit.specs.Names.{AreLeft, names_from};

    ghost Value = { Node };

    ghost view = { λ s. record { level = s.level; items = names_from s.level s.left s.start s.bytes.items } };

    ghost invariant = { λ s. AreLeft D.address s.level s.taken s.left s.start s.bytes.items (names_from s.level s.left s.start s.bytes.items) };
}

/// A step that has nothing left.
impl<D: Digester> MadeWith<Global> for Step<D> {
    fn made_with(alloc: Global) -> Step<D> {
        Step {
            level: 0,
            taken: 0,
            left: 0,
            start: 0,
            bytes: Vec::new(alloc),
            digester: PhantomData,
        }
    }
}

impl<D: Digester> Step<D> {
    /// The names in the inner node whose bytes these are.
    pub(crate) fn new(bytes: Vec<u8>) -> Step<D>
        requires { (node : Node) × (bytes.items ≡ node_bytes node) × IsNode node × (0 < node.level) × (length (node_bytes node) ≤ 65536) × StaysOpen D.address node.level node.items }
        ensures { (node : Node) → bytes.items ≡ node_bytes node → IsNode node → 0 < node.level → result ≡ record { level = node.level - 1; items = node.items } }
    {
        let node = KnownNode::of(&bytes);
        let level = node.level() - 1;
        let left = node.count();
        Step {
            level,
            taken: 0,
            left,
            start: 4,
            bytes,
            digester: PhantomData,
        }
    }

    fn level(&self) -> u8
        ensures { result ≡ self.now.level }
    {
        self.level
    }

    fn is_empty(&self) -> bool
        ensures { result ≡ is_over (on_level self.now.level self.now.items) }
    {
        self.left == 0
    }

    /// Takes the first name; its key goes into the room.
    fn next(&mut self, room: &mut Vec<u8>) -> Result<Name, AllocError>
        requires { 0 < length self.old.items }
        ensures level { self.new.level ≡ self.old.level }
        ensures items { IfOk result (λ name. self.old.items ≡ item_of name ∷ self.new.items) }
        ensures known { IfOk result (λ name. Outlasts D.address (suc self.old.level) name.steps (item_of name).key) }
    {
        let (_, names) = self.bytes.split_at(self.start);
        let (key, address, rows) = first_name(names);
        let key = copied_into(room, key)?;
        let item = RefItem { key, address, rows };
        let end = self.start + name_size(&item) as usize;
        let steps = steps_of_next(self.left, end as u32, u32::from(self.taken) + 1);
        self.taken += 1;
        self.left -= 1;
        self.start = end;
        Ok(Name { item, steps })
    }
}

/// How many steps an item outlasts, by which a node has so many bytes and items: none are known of the last.
fn steps_of_next(left: u16, size: u32, count: u32) -> u32
    ensures { (address : List ℕ → List ℕ) (level : ℕ) (key : List ℕ) → (1 < left → ends address level size count key ≡ false) → Outlasts address level result key }
{
    if left > 1 { steps_of(size, count) } else { 0 }
}

/// The nodes that a walk hasn't read yet, in the order of their keys; each step has a name.
#[derive(Drop)]
pub(crate) struct Path<D: Digester> {
    steps: SmallVec<Step<D>, 4>,
}

impl<D: Digester> Model for Path<D> {
    ghost use Rattle.prolly_edit.specs.Fronts.{HaveNames, front_of};
    ghost use Rattle.prolly_tree.specs.Fronts.{Front};

    ghost Value = { Front };

    ghost view = { λ p. front_of p.steps.items };

    ghost invariant = { λ p. HaveNames p.steps.items };
}

impl<D: Digester> Path<D> {
    pub(crate) fn new(alloc: Global) -> Path<D>
        ensures { result ≡ [] }
    {
        Path {
            steps: SmallVec::new(alloc),
        }
    }

    pub(crate) fn is_empty(&self) -> bool
        ensures { result ≡ is_over self.now }
    {
        self.steps.is_empty()
    }

    /// Puts nodes before all others.
    pub(crate) fn push(&mut self, step: Step<D>) -> Result<(), AllocError>
        requires { 0 < length step.items }
        ensures { OnOk result (self.new ≡ on_level step.level step.items ++ self.old) }
    {
        self.steps.push(step)?;
        Ok(())
    }

    /// Takes the first node: its level, and the item that names it, whose key goes into the room.
    pub(crate) fn next(&mut self, room: &mut Vec<u8>) -> Result<Option<(u8, Name)>, AllocError>
        ensures front { IfOk result (λ next. MatchOption next (self.old ≡ []) (λ part. self.old ≡ (part.0, item_of part.1) ∷ self.new)) }
        ensures known { IfOk result (λ next. IfSome next (λ part. Outlasts D.address (suc part.0) part.1.steps (item_of part.1).key)) }
    {
        // a length is within the capacity, so a step that was taken out has room when it is put back
        let _depth = self.steps.len();
        match self.steps.pop() {
            None => Ok(None),
            Some(mut step) => {
                let level = step.level();
                let name = step.next(room)?;
                if !step.is_empty() {
                    self.steps.push_reserved(step);
                }
                Ok(Some((level, name)))
            }
        }
    }
}
