//! The statement that a text is, or the refusal that comes first where it is none; and the expression of a canonical text.
#![tactic(auto)]

mod checking;
mod faults;
mod judging;
mod openings;
mod parsing;
mod places;

pub use checking::{parse_check, read_check};
pub use parsing::parse;
