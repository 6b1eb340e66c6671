//! A run of the program: from the words of the command line and the bytes of a script to the text that is written, and its status.
//!
//! What the program promises stands on [`run`], which takes any source and sink. With `load` nothing is read: a workload that is made from a seed is run in
//! threads, and a few lines tell what came of it.
#![tactic(auto)]

mod answering;
mod counting;
mod lines;
mod load;
mod loading;
mod printing;
mod refusals;
mod top;
mod trouble;
mod words;
mod writing;

pub use loading::{Load, run_load};
pub use printing::print_load;
pub use top::{run, run_with};
pub use words::{Invocation, LoadRun, Mode, MomentOrder, ScriptRun, Task};
