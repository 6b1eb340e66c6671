//! Nodes of trees as bytes: read in place, written, and where a node ends.
//!
//! The crates above use the clauses of [`NodeRef`] (the node that stands in the bytes is seen as a `Node`, a level and a
//! list of items), of the two writers and of [`NodeBuilder`] (`node_bytes` of such a node) and of [`ends_here`] (the
//! boundary rule, `ends`). These words are in `tuple_codec`'s `specs/Nodes.antt`.
#![tactic(auto)]

mod boundary;
mod building;
mod fields;
mod items;
mod known;
mod laws;
mod marks;
mod node;
mod scan;
mod writing;

pub use boundary::{ends_from, ends_here, steps_of};
pub use building::NodeBuilder;
pub use items::{LeafItem, RefItem};
pub use known::{KnownNode, first_name, first_row};
pub use laws::{law_of_items, law_of_spelling};
pub use node::{Malformed, NodeRef};
pub use writing::{name_size, row_size, write_inner, write_leaf};
