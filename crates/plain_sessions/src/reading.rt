//! A text read as what it asks.

ghost use Rattle.std.specs.Prelude.{◌≡◌, ◌<◌, ◌^◌, true, length, IfOk};
ghost use Rattle.tuple_codec.specs.Texts.{is_utf8};
ghost use Rattle.sql_procedures.specs.Arguments.{request_of};
ghost use Rattle.plain_sessions.specs.Commands.{call_command, command, misused, request_command, requested, select_command, statement_command};
ghost use Rattle.plain_sessions.specs.Fitness.{IsFitCommand};

use crate::commands::{Command, Work};
use sql_ast::{Call, ReadFault, Refusal, Select, Statement};
use sql_laws::law_of_sound_statements;
use sql_parse::parse;
use sql_procedures::{Procedure, Request, arguments_of, procedure_named};
use std::alloc::{AllocError, Global};
use tuple_codec::{Boxed, Text};

/// What a text asks, in a box, since trees that are owned in a function over any digester are dear to prove.
pub fn read_command(alloc: Global, text: &[u8]) -> Result<Boxed<Command>, AllocError>
    requires size { length text.now < 2 ^ 32 }
    requires utf8 { is_utf8 text.now ≡ true }
    ensures is { IfOk result (λ asked. asked ≡ command text.now) }
    ensures fit { IfOk result IsFitCommand }
{
    law_of_sound_statements();
    let asked = command_in(alloc, text)?;
    Boxed::new(alloc, asked)
}

#[tactic(auto, unfolding(crate::specs::Commands::command))]
fn command_in(alloc: Global, text: &[u8]) -> Result<Command, AllocError>
    requires { length text.now < 2 ^ 32 }
    ensures { IfOk result (λ asked. asked ≡ command text.now) }
{
    match parse(alloc, text) {
        Ok(statement) => statement_command(alloc, statement),
        Err(ReadFault::Memory) => Err(AllocError),
        Err(ReadFault::Refused(refusal)) => Ok(Command::Faulty(refusal)),
    }
}

fn statement_command(alloc: Global, statement: Statement) -> Result<Command, AllocError>
    ensures { IfOk result (λ asked. asked ≡ statement_command statement) }
{
    match statement {
        Statement::Write(write) => Ok(Command::Data(Work::Change(write))),
        Statement::Select(select) => Ok(select_command(select)),
        Statement::Begin => Ok(Command::Begin),
        Statement::Start => Ok(Command::Begin),
        Statement::Commit => Ok(Command::CommitAll),
        Statement::Rollback => Ok(Command::Rollback),
        Statement::Set(setting) => Ok(Command::Switch(setting)),
        Statement::Call(call) => call_command(alloc, &call),
    }
}

fn select_command(select: Select) -> Command
    ensures { result ≡ select_command select }
{
    match select {
        Select::From(query) => Command::Data(Work::Ask(Select::From(query))),
        Select::Alone(list) => Command::Say(Select::Alone(list)),
    }
}

fn call_command(alloc: Global, call: &Call) -> Result<Command, AllocError>
    ensures { IfOk result (λ asked. asked ≡ call_command call.now) }
{
    match procedure_named(&call.name) {
        Some(procedure) => called(alloc, procedure, call.arguments.as_slice()),
        None => Ok(misused()),
    }
}

fn called(alloc: Global, procedure: Procedure, arguments: &[Text]) -> Result<Command, AllocError>
    ensures { IfOk result (λ asked. asked ≡ requested (request_of procedure arguments.now)) }
{
    let request = arguments_of(alloc, procedure, arguments)?;
    Ok(requested(request))
}

fn requested(request: Option<Request>) -> Command
    ensures { result ≡ requested request }
{
    match request {
        Some(request) => request_command(request),
        None => misused(),
    }
}

fn request_command(request: Request) -> Command
    ensures { result ≡ request_command request }
{
    match request {
        Request::Add(tables) => Command::Data(Work::Add(tables)),
        Request::Reset(reset) => Command::Data(Work::ResetTo(reset)),
        Request::Commit(commit) => Command::Data(Work::Commit(commit)),
        Request::Branch(branch) => Command::OnBranches(branch),
        Request::Checkout(checkout) => Command::Checkout(checkout),
        Request::Merge(merge) => Command::Data(Work::Merge(merge)),
        Request::ConflictsResolve(resolution) => Command::Data(Work::Resolve(resolution)),
        Request::VerifyConstraints(verification) => Command::Data(Work::Verify(verification)),
    }
}

/// A procedure is called with arguments that it doesn't take.
fn misused() -> Command
    ensures { result ≡ misused }
{
    Command::Faulty(Refusal {
        number: 9008,
        at: 0,
    })
}
