//! Trees built row by row: lists of rows cut into nodes, whose chunks are put into a draft.
//!
//! The crates above use the clauses of [`Tower`] and [`build`]: which rows a tower has taken (`IsTower` of
//! `specs/Growth.antt`), and that the root which comes of them is that of their tree. [`copied_into`] is for walks
//! above, which hold the names of nodes as a tower does.
#![tactic(auto)]

mod builds;
mod chunks;
mod closings;
mod descents;
mod inners;
mod leaves;
mod towers;

pub use builds::build;
pub use chunks::copied_into;
pub use towers::Tower;
