//! What a SELECT shows of a database that a draft keeps as trees: the tables that it names are read, and answered
//! as the definition of queries has it; and what a test seeks there, by primary keys or by the columns of an index.
//!
//! The crates above use `specs/Sources.antt`, what a SELECT knows, and [`sought`] and [`rows_sought`], with which UPDATE and DELETE seek, too.
#![tactic(auto)]

mod answering;
mod choosing;
mod entries;
mod faults;
mod laws;
mod naming;
mod reading;
mod seeking;
mod sources;
mod span_reading;
mod spans;
mod steady;
mod test_seeking;

pub use answering::answer;
pub use choosing::{Seek, rows_sought, sought};
pub use entries::Entries;
pub use faults::AskFault;
pub use laws::law_of_reading;
pub use sources::{NamedAnswer, Sources};
pub use spans::{End, KeySpan};
