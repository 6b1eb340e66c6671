//! What many sessions do to the databases that they share: the machine, as definitions, on which the code's contracts stand, and what a text asks of it.
#![tactic(auto)]

mod commands;
mod reading;

pub use commands::{Command, Work};
pub use reading::read_command;
