//! What the arguments of DOLT_MERGE ask for, taken one after another.

ghost use Rattle.std.specs.Prelude.{◌≡◌, IfOk};
ghost use Rattle.sql_procedures.specs.Arguments.{is_abort, merge_argument, merge_from, merge_message, merge_name, merge_of, merge_option, merged, no_merge, with_merge_message, with_no_ff};

use crate::arguments::{copied, is_message_text, is_option, is_point_name};
use crate::requests::{MergeOf, MergeRequest};
use std::alloc::{AllocError, Global};
use tuple_codec::Text;

/// What the arguments of DOLT_MERGE have said so far.
#[derive(Drop)]
pub struct Merge {
    /// The next argument is the message.
    pub awaits_message: bool,
    pub message: Option<Text>,
    /// The name of what is merged.
    pub name: Option<Text>,
    /// `--no-ff`.
    pub no_ff: bool,
}

/// What the arguments of DOLT_MERGE ask for.
pub fn read_merge(alloc: Global, arguments: &[Text]) -> Result<Option<MergeRequest>, AllocError>
    ensures { IfOk result (λ request. request ≡ merge_of arguments.now) }
{
    if aborts(arguments) {
        return Ok(Some(MergeRequest::Abort));
    }
    match take_all(alloc, arguments)? {
        Some(seen) => Ok(request_in(seen)),
        None => Ok(None),
    }
}

fn aborts(arguments: &[Text]) -> bool
    ensures { result ≡ is_abort arguments.now }
{
    match arguments {
        [only] => is_option(only, b"--abort"),
        _ => false,
    }
}

fn request_in(seen: Merge) -> Option<MergeRequest>
    ensures { result ≡ merged seen }
{
    if seen.awaits_message {
        return None;
    }
    let no_ff = seen.no_ff;
    let message = seen.message;
    match seen.name {
        Some(name) => Some(MergeRequest::Merge(MergeOf {
            name,
            no_ff,
            message,
        })),
        None => None,
    }
}

fn take_all(alloc: Global, arguments: &[Text]) -> Result<Option<Merge>, AllocError>
    ensures { IfOk result (λ seen. seen ≡ merge_from no_merge arguments.now) }
{
    let mut seen = Merge {
        awaits_message: false,
        message: None,
        name: None,
        no_ff: false,
    };
    for argument in arguments {
        match take_argument(alloc, seen, argument)? {
            Some(next) => seen = next,
            None => return Ok(None),
        }
    }
    Ok(Some(seen))
}

fn take_argument(alloc: Global, seen: Merge, argument: &Text) -> Result<Option<Merge>, AllocError>
    ensures { IfOk result (λ next. next ≡ merge_argument seen argument.now) }
{
    if seen.awaits_message {
        take_message(alloc, seen, argument)
    } else {
        take_option(alloc, seen, argument)
    }
}

fn take_message(alloc: Global, seen: Merge, argument: &Text) -> Result<Option<Merge>, AllocError>
    ensures { IfOk result (λ next. next ≡ merge_message seen argument.now) }
{
    if is_message_text(argument) {
        let message = copied(alloc, argument)?;
        Ok(Some(Merge {
            awaits_message: false,
            message: Some(message),
            ..seen
        }))
    } else {
        Ok(None)
    }
}

fn take_option(alloc: Global, seen: Merge, argument: &Text) -> Result<Option<Merge>, AllocError>
    ensures { IfOk result (λ next. next ≡ merge_option seen argument.now) }
{
    if is_option(argument, b"--no-ff") {
        Ok(forbid_fast_forward(seen))
    } else if is_option(argument, b"-m") {
        Ok(await_message(seen))
    } else {
        take_name(alloc, seen, argument)
    }
}

fn forbid_fast_forward(seen: Merge) -> Option<Merge>
    ensures { result ≡ with_no_ff seen }
{
    if seen.no_ff {
        return None;
    }
    Some(Merge {
        no_ff: true,
        ..seen
    })
}

fn await_message(seen: Merge) -> Option<Merge>
    ensures { result ≡ with_merge_message seen }
{
    if seen.message.is_some() {
        return None;
    }
    Some(Merge {
        awaits_message: true,
        ..seen
    })
}

fn take_name(alloc: Global, seen: Merge, argument: &Text) -> Result<Option<Merge>, AllocError>
    ensures { IfOk result (λ next. next ≡ merge_name seen argument.now) }
{
    if seen.name.is_some() || !is_point_name(argument) {
        return Ok(None);
    }
    let name = copied(alloc, argument)?;
    Ok(Some(Merge {
        name: Some(name),
        ..seen
    }))
}
