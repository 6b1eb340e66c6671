//! Queries of one database, as plain as they are defined: all combinations of the sources' rows, tested, grouped,
//! made distinct, ordered and cut.
#![tactic(auto)]

mod answering;
mod asking;
mod binding;
mod calm;
mod combining;
mod distinct;
mod faults;
mod grouping;
mod items;
mod keys;
mod levels;
mod linking;
mod lists;
mod lookups;
mod planning;
mod ranking;
mod shown;
mod sources;

pub use answering::answer;
pub use asking::{ask, passes};
pub use binding::{bound, condition};
pub use calm::is_calm;
pub use faults::Refused;
pub use grouping::cells_at;
pub use lists::append;
pub use shown::is_null;
pub use sources::{Known, NamedType};
