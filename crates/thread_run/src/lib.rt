//! Sessions run in threads of their own, and meet at a gate for each moment of a statement. The order in which they came to the gate is the run's
//! order of moments.
#![tactic(auto)]

mod at_gate;
mod holding;
mod opening;
mod running;
mod session;

pub use at_gate::AtGate;
pub use running::{Ended, run_text, run_threads, run_to_end};
