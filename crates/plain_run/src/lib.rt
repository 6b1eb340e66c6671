//! The plain machine's text of a script along an order of moments, for whoever wants to compare a run with it.
//!
//! It is computed by the runs of `script_run`, which are proved to be the plain machine's, and not by a second machine.
#![tactic(auto)]

mod asking;
mod following;
mod lines;
mod output;
mod shortages;

pub use following::{Followed, plain_output_in_given_order};
pub use lines::plain_output_in_text_order;
pub use output::plain_output;
