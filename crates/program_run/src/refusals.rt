//! How many statements were refused.

ghost use Rattle.std.specs.Prelude.{◌≡◌, ◌+◌, IfOk, length};
ghost use Rattle.std.specs.List.{filter};
ghost use Rattle.plain_sessions.specs.Replies.{is_refusal};
ghost use Rattle.program_run.specs.Loading.{refusals_in};

use script_text::Reply;
use std::alloc::AllocError;
use tuple_codec::Sequence;

/// How many replies are refusals. No memory holds 2^64 of them.
pub(crate) fn count_refusals(replies: &[Sequence<Reply>]) -> Result<u64, AllocError>
    ensures { IfOk result (λ refusals. refusals ≡ refusals_in replies.now) }
{
    let mut refusals: u64 = 0;
    for session in replies {
        refusals = sum_of(refusals, refusals_among(session.as_slice()))?;
    }
    Ok(refusals)
}

fn sum_of(a: u64, b: u64) -> Result<u64, AllocError>
    ensures { IfOk result (λ sum. sum ≡ a + b) }
{
    match a.checked_add(b) {
        Some(sum) => Ok(sum),
        None => Err(AllocError),
    }
}

/// How many of a session's replies are refusals.
fn refusals_among(replies: &[Reply]) -> u64
    ensures { result ≡ length (filter is_refusal replies.now) }
{
    let mut refusals: u64 = 0;
    for reply in replies {
        if is_refusal(reply) {
            refusals += 1;
        }
    }
    refusals
}

/// Whether the statement was refused, by a rule or for want of memory.
fn is_refusal(reply: &Reply) -> bool
    ensures { result ≡ is_refusal reply.now }
{
    match reply {
        Reply::Done | Reply::Count(_) | Reply::Rows(_) => false,
        Reply::Refused(_) | Reply::Syntax(_) | Reply::Collided(_) => true,
    }
}
