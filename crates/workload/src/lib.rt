//! The workload: a script of eight sessions that write one table, made of a seed.
#![tactic(auto)]

mod draws;
mod laws;
mod scripts;
mod steps;

pub use draws::Drawn;
pub use laws::law_of_workload;
pub use scripts::load_script;
pub use steps::{LoadStep, Pair};
