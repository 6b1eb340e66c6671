//! The procedures of the language, and what their arguments ask for.
#![tactic(auto)]

mod arguments;
mod commits;
mod merges;
mod procedures;
mod requests;

pub use procedures::{Procedure, arguments_of, procedure_named};
pub use requests::{
    BranchRequest, CheckoutRequest, CommitRequest, MergeOf, MergeRequest, NewBranch, Request,
    Reset, Resolution, Side, Staging, Tables, Verification,
};
