//! The procedures by their names, and what a call of each asks for.

ghost use Rattle.std.specs.Prelude.{◌≡◌, IfOk};
ghost use Rattle.sql_procedures.specs.Arguments.{procedure_of, request_of};

use crate::arguments::{
    read_add, read_branch, read_checkout, read_reset, read_resolve, read_verify,
};
use crate::commits::read_commit;
use crate::merges::read_merge;
use crate::requests::Request;
use std::alloc::{AllocError, Global};
use tuple_codec::Text;

/// The procedures of the language.
#[derive(Clone, Copy, PartialEq, Eq)]
pub enum Procedure {
    Add,
    Reset,
    Commit,
    Branch,
    Checkout,
    Merge,
    ConflictsResolve,
    VerifyConstraints,
}

/// The procedure that a name stands for.
pub fn procedure_named(name: &Text) -> Option<Procedure>
    ensures { result ≡ procedure_of name.now }
{
    if name.is(b"dolt_add") {
        Some(Procedure::Add)
    } else if name.is(b"dolt_reset") {
        Some(Procedure::Reset)
    } else if name.is(b"dolt_commit") {
        Some(Procedure::Commit)
    } else if name.is(b"dolt_branch") {
        Some(Procedure::Branch)
    } else if name.is(b"dolt_checkout") {
        Some(Procedure::Checkout)
    } else if name.is(b"dolt_merge") {
        Some(Procedure::Merge)
    } else if name.is(b"dolt_conflicts_resolve") {
        Some(Procedure::ConflictsResolve)
    } else if name.is(b"dolt_verify_constraints") {
        Some(Procedure::VerifyConstraints)
    } else {
        None
    }
}

/// What a call of a procedure asks for, whatever the database holds; nothing where it doesn't take these arguments.
pub fn arguments_of(
    alloc: Global,
    procedure: Procedure,
    arguments: &[Text],
) -> Result<Option<Request>, AllocError>
    ensures { IfOk result (λ request. request ≡ request_of procedure arguments.now) }
{
    match procedure {
        Procedure::Add => Ok(read_add(alloc, arguments)?.map(Request::Add)),
        Procedure::Reset => Ok(read_reset(alloc, arguments)?.map(Request::Reset)),
        Procedure::Commit => Ok(read_commit(alloc, arguments)?.map(Request::Commit)),
        Procedure::Branch => Ok(read_branch(alloc, arguments)?.map(Request::Branch)),
        Procedure::Checkout => Ok(read_checkout(alloc, arguments)?.map(Request::Checkout)),
        Procedure::Merge => Ok(read_merge(alloc, arguments)?.map(Request::Merge)),
        Procedure::ConflictsResolve => {
            Ok(read_resolve(alloc, arguments)?.map(Request::ConflictsResolve))
        }
        Procedure::VerifyConstraints => {
            Ok(read_verify(arguments).map(Request::VerifyConstraints))
        }
    }
}
