//! What a text asks.

use sql_ast::{Refusal, Select, Setting, Write};
use sql_procedures::{
    BranchRequest, CheckoutRequest, CommitRequest, MergeRequest, Reset, Resolution, Tables,
    Verification,
};

/// A database statement: it reads or changes the session's own state, in a transaction.
#[derive(Drop)]
pub enum Work {
    /// A SELECT with sources.
    Ask(Select),
    /// CREATE, DROP, INSERT, UPDATE, DELETE or ALTER.
    Change(Write),
    Add(Tables),
    ResetTo(Reset),
    Commit(CommitRequest),
    Merge(MergeRequest),
    Resolve(Resolution),
    Verify(Verification),
}

/// What a statement's text asks of a session.
#[derive(Drop)]
pub enum Command {
    /// Refused by its text alone.
    Faulty(Refusal),
    Begin,
    CommitAll,
    Rollback,
    Switch(Setting),
    /// A SELECT without sources.
    Say(Select),
    Data(Work),
    OnBranches(BranchRequest),
    Checkout(CheckoutRequest),
}
