//! The text of a given order that can't be followed.

// Each function but the first writes behind what `out` holds. Where memory was wanting, nothing is said of `out`.

ghost use Rattle.std.specs.Prelude.{◌≡◌, ◌++◌, IfOk, OnOk, codes};
ghost use Rattle.std.specs.Fmt.{decimal};
ghost use Rattle.script_text.specs.Output.{Clashes, all_refused, refused_text, refused_texts, shortage, shortage_of, shortage_text, stop_text};

use crate::outputs::StopText;
use crate::printing::push_hex;
use crate::replies::Reply;
use chunk_store::Clash;
use sql_text::push_number;
use std::alloc::{AllocError, Global};
use tuple_codec::{Blob, Sequence, Text};

/// The text of an order that can't be followed: the item, and the statements before it that were answered by a want of memory or by a
/// collision.
pub fn print_stop(alloc: Global, stop: &StopText) -> Result<Blob, AllocError>
    ensures { IfOk result (λ bytes. bytes ≡ stop_text stop.now) }
{
    let mut out = Vec::new(alloc);
    out.extend_from_slice(b"order item ")?;
    push_number(&mut out, stop.item)?;
    out.extend_from_slice(b"\n")?;
    out.extend_from_slice(b"refused")?;
    push_all_refused(
        alloc,
        &mut out,
        stop.names.as_slice(),
        stop.replies.as_slice(),
    )?;
    out.extend_from_slice(b"\n")?;
    Ok(Blob::from_vec(out))
}

/// Writes behind what `out` holds the statements that were answered by a want of memory or a collision, session by session, each behind a space.
/// Where memory was wanting, nothing is said of `out`.
pub fn push_all_refused(
    alloc: Global,
    out: &mut Vec<u8>,
    names: &[Text],
    replies: &[Sequence<Reply>],
) -> Result<(), AllocError>
    ensures { OnOk result (out.new.items ≡ out.old.items ++ all_refused names.now replies.now) }
{
    for (name, session) in names.iter().zip(replies) {
        push_refused(alloc, out, name.as_slice(), session.as_slice())?;
    }
    Ok(())
}

/// Writes those of a session's statements that were answered so, numbered from 1 on.
fn push_refused(
    alloc: Global,
    out: &mut Vec<u8>,
    name: &[u8],
    replies: &[Reply],
) -> Result<(), AllocError>
    ensures { OnOk result (out.new.items ≡ out.old.items ++ refused_texts name.now 1 replies.now) }
{
    let mut number: u64 = 0;
    for reply in replies {
        number += 1;
        push_if_short(alloc, out, name, number, reply)?;
    }
    Ok(())
}

/// Writes a statement, if its answer was a want of memory or a collision.
fn push_if_short(
    alloc: Global,
    out: &mut Vec<u8>,
    name: &[u8],
    number: u64,
    reply: &Reply,
) -> Result<(), AllocError>
    ensures { OnOk result (out.new.items ≡ out.old.items ++ refused_text name.now number (shortage reply.now)) }
{
    match reply {
        Reply::Refused(refusal) => push_if_memory(out, name, number, *refusal),
        Reply::Collided(clash) => push_collided(alloc, out, name, number, clash),
        Reply::Done | Reply::Count(_) | Reply::Rows(_) | Reply::Syntax(_) => Ok(()),
    }
}

/// Writes a statement that was refused, if memory was wanting.
fn push_if_memory(
    out: &mut Vec<u8>,
    name: &[u8],
    number: u64,
    refusal: u16,
) -> Result<(), AllocError>
    ensures { OnOk result (out.new.items ≡ out.old.items ++ refused_text name.now number (shortage_of refusal)) }
{
    match refusal {
        1 => push_short(out, name, number, b"1"),
        2 => push_short(out, name, number, b"2"),
        _ => Ok(()),
    }
}

fn push_short(out: &mut Vec<u8>, name: &[u8], number: u64, short: &[u8]) -> Result<(), AllocError>
    ensures { OnOk result (out.new.items ≡ out.old.items ++ (codes " " ++ name.now ++ codes "/" ++ decimal number ++ codes ":" ++ short.now)) }
{
    push_item(out, name, number)?;
    out.extend_from_slice(short)
}

fn push_collided(
    alloc: Global,
    out: &mut Vec<u8>,
    name: &[u8],
    number: u64,
    clash: &Clash,
) -> Result<(), AllocError>
    ensures { OnOk result (out.new.items ≡ out.old.items ++ (codes " " ++ name.now ++ codes "/" ++ decimal number ++ codes ":" ++ shortage_text (Clashes clash.now))) }
{
    push_item(out, name, number)?;
    push_strings(alloc, out, clash)
}

/// Writes a statement, by its session's name and its number.
fn push_item(out: &mut Vec<u8>, name: &[u8], number: u64) -> Result<(), AllocError>
    ensures { OnOk result (out.new.items ≡ out.old.items ++ (codes " " ++ name.now ++ codes "/" ++ decimal number ++ codes ":")) }
{
    out.extend_from_slice(b" ")?;
    out.extend_from_slice(name)?;
    out.extend_from_slice(b"/")?;
    push_number(out, number)?;
    out.extend_from_slice(b":")
}

/// Writes the address that two byte strings have, and both of them.
fn push_strings(alloc: Global, out: &mut Vec<u8>, clash: &Clash) -> Result<(), AllocError>
    ensures { OnOk result (out.new.items ≡ out.old.items ++ shortage_text (Clashes clash.now)) }
{
    out.extend_from_slice(b"3:")?;
    out.extend_from_slice(&clash.address.text())?;
    push_hex(alloc, out, b':', clash.first.as_slice())?;
    push_hex(alloc, out, b':', clash.second.as_slice())
}
