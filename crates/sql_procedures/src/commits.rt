//! What the arguments of DOLT_COMMIT ask for, taken one after another.

ghost use Rattle.std.specs.Prelude.{◌≡◌, IfOk};
ghost use Rattle.sql_procedures.specs.Arguments.{no_commit, commit_argument, commit_from, commit_message, commit_of, commit_option, committed, staging_of, with_all, with_empty, with_message, with_named};

use crate::arguments::{copied, is_message_text, is_option};
use crate::requests::{CommitRequest, Staging};
use std::alloc::{AllocError, Global};
use tuple_codec::Text;

/// What the arguments of DOLT_COMMIT have said so far.
#[derive(Drop)]
pub struct Commit {
    /// The next argument is the message.
    pub awaits_message: bool,
    pub message: Option<Text>,
    /// `-a`, or as a part of `-am`.
    pub named: bool,
    /// `-A`, or as a part of `-Am`.
    pub all: bool,
    /// `--allow-empty`.
    pub empty: bool,
}

/// What the arguments of DOLT_COMMIT ask for.
pub fn read_commit(alloc: Global, arguments: &[Text]) -> Result<Option<CommitRequest>, AllocError>
    ensures { IfOk result (λ request. request ≡ commit_of arguments.now) }
{
    match take_all(alloc, arguments)? {
        Some(seen) => Ok(request_in(seen)),
        None => Ok(None),
    }
}

fn request_in(seen: Commit) -> Option<CommitRequest>
    ensures { result ≡ committed seen }
{
    if seen.awaits_message {
        return None;
    }
    let staging = staging_in(seen.named, seen.all);
    let allow_empty = seen.empty;
    match seen.message {
        Some(message) => Some(CommitRequest {
            message,
            staging,
            allow_empty,
        }),
        None => None,
    }
}

fn staging_in(named: bool, all: bool) -> Staging
    ensures { result ≡ staging_of named all }
{
    if all {
        Staging::All
    } else if named {
        Staging::Known
    } else {
        Staging::AsIs
    }
}

fn take_all(alloc: Global, arguments: &[Text]) -> Result<Option<Commit>, AllocError>
    ensures { IfOk result (λ seen. seen ≡ commit_from no_commit arguments.now) }
{
    let mut seen = Commit {
        awaits_message: false,
        message: None,
        named: false,
        all: false,
        empty: false,
    };
    for argument in arguments {
        match take_argument(alloc, seen, argument)? {
            Some(next) => seen = next,
            None => return Ok(None),
        }
    }
    Ok(Some(seen))
}

fn take_argument(alloc: Global, seen: Commit, argument: &Text) -> Result<Option<Commit>, AllocError>
    ensures { IfOk result (λ next. next ≡ commit_argument seen argument.now) }
{
    if seen.awaits_message {
        take_message(alloc, seen, argument)
    } else {
        Ok(take_option(seen, argument))
    }
}

fn take_message(alloc: Global, seen: Commit, argument: &Text) -> Result<Option<Commit>, AllocError>
    ensures { IfOk result (λ next. next ≡ commit_message seen argument.now) }
{
    if is_message_text(argument) {
        let message = copied(alloc, argument)?;
        Ok(Some(Commit {
            awaits_message: false,
            message: Some(message),
            ..seen
        }))
    } else {
        Ok(None)
    }
}

fn take_option(seen: Commit, argument: &Text) -> Option<Commit>
    ensures { result ≡ commit_option seen argument.now }
{
    if is_option(argument, b"-m") {
        await_message(seen)
    } else if is_option(argument, b"-am") {
        await_message(stage_named(seen)?)
    } else if is_option(argument, b"-Am") {
        await_message(stage_all(seen)?)
    } else if is_option(argument, b"-a") {
        stage_named(seen)
    } else if is_option(argument, b"-A") {
        stage_all(seen)
    } else if is_option(argument, b"--allow-empty") {
        allow_empty(seen)
    } else {
        None
    }
}

fn await_message(seen: Commit) -> Option<Commit>
    ensures { result ≡ with_message seen }
{
    if seen.message.is_some() {
        return None;
    }
    Some(Commit {
        awaits_message: true,
        ..seen
    })
}

fn stage_named(seen: Commit) -> Option<Commit>
    ensures { result ≡ with_named seen }
{
    if seen.named {
        return None;
    }
    Some(Commit {
        named: true,
        ..seen
    })
}

fn stage_all(seen: Commit) -> Option<Commit>
    ensures { result ≡ with_all seen }
{
    if seen.all {
        return None;
    }
    Some(Commit { all: true, ..seen })
}

fn allow_empty(seen: Commit) -> Option<Commit>
    ensures { result ≡ with_empty seen }
{
    if seen.empty {
        return None;
    }
    Some(Commit {
        empty: true,
        ..seen
    })
}
