//! The text of a run.

// Each function writes behind what `out` holds. Where memory was wanting, nothing is said of `out`.

ghost use Rattle.std.specs.Prelude.{◌≡◌, ◌++◌, ◌∷◌, IfOk, OnOk};
ghost use Rattle.std.specs.List.{flat_map, join_with_byte};
ghost use Rattle.script_text.specs.Output.{answer_text, branch_line, clash_text, merging_text, moment_text, order_line, reply_lines, reply_text, row_lines, session_lines, text};
ghost use Rattle.hex.specs.Hex.{encode_lower};
ghost use Rattle.tuple_codec.specs.AddressTexts.{address_text};
ghost use Rattle.script_text.specs.Shown.{IsPrintable};
ghost use Rattle.script_text.specs.declared.replies.Reply.TheVariants.{Refused, Syntax};

use crate::outputs::{BranchLine, RunText};
use crate::refusals::refusal_words;
use crate::replies::Reply;
use crate::scripts::Moment;
use chunk_store::Clash;
use sql_text::{push_number, push_row};
use std::alloc::{AllocError, Global};
use tuple_codec::{Address, Answer, Blob, Row, Sequence, SqlType, Text};

/// The text of a run: for each session its name and its replies, then the order of the moments, and then a line for each branch.
pub fn print_output(alloc: Global, run: &RunText) -> Result<Blob, AllocError>
    requires { IsPrintable run.now }
    ensures { IfOk result (λ bytes. bytes ≡ text run.now) }
{
    let mut out = Vec::new(alloc);
    push_sessions(
        alloc,
        &mut out,
        run.names.as_slice(),
        run.replies.as_slice(),
    )?;
    push_order(&mut out, run.names.as_slice(), run.order.as_slice())?;
    push_branches(&mut out, run.branches.as_slice())?;
    Ok(Blob::from_vec(out))
}

fn push_sessions(
    alloc: Global,
    out: &mut Vec<u8>,
    names: &[Text],
    replies: &[Sequence<Reply>],
) -> Result<(), AllocError>
    ensures { OnOk result (out.new.items ≡ out.old.items ++ session_lines names.now replies.now) }
{
    for (name, session) in names.iter().zip(replies) {
        out.extend_from_slice(b"session ")?;
        out.extend_from_slice(name.as_slice())?;
        out.extend_from_slice(b"\n")?;
        push_replies(alloc, out, session.as_slice())?;
    }
    Ok(())
}

/// Writes a session's replies, each behind its statement's number, from 1 on.
fn push_replies(alloc: Global, out: &mut Vec<u8>, replies: &[Reply]) -> Result<(), AllocError>
    ensures { OnOk result (out.new.items ≡ out.old.items ++ reply_lines 1 replies.now) }
{
    let mut number: u64 = 0;
    for reply in replies {
        number += 1;
        push_number(out, number)?;
        out.extend_from_slice(b" ")?;
        push_reply(alloc, out, reply)?;
        out.extend_from_slice(b"\n")?;
    }
    Ok(())
}

fn push_reply(alloc: Global, out: &mut Vec<u8>, reply: &Reply) -> Result<(), AllocError>
    ensures { OnOk result (out.new.items ≡ out.old.items ++ reply_text reply.now) }
{
    match reply {
        Reply::Done => out.extend_from_slice(b"ok"),
        Reply::Count(rows) => {
            out.extend_from_slice(b"ok ")?;
            push_number(out, *rows)
        }
        Reply::Rows(answer) => push_answer(alloc, out, answer),
        Reply::Refused(number) => push_refusal(out, *number),
        Reply::Syntax(at) => push_syntax(out, *at),
        Reply::Collided(clash) => {
            out.extend_from_slice(b"refused 3 collision")?;
            push_clash(alloc, out, clash)
        }
    }
}

fn push_refusal(out: &mut Vec<u8>, number: u16) -> Result<(), AllocError>
    ensures { OnOk result (out.new.items ≡ out.old.items ++ reply_text (Refused number)) }
{
    out.extend_from_slice(b"refused ")?;
    push_number(out, u64::from(number))?;
    out.extend_from_slice(b" ")?;
    match refusal_words(number) {
        Some(words) => out.extend_from_slice(words.as_bytes()),
        None => Ok(()),
    }
}

fn push_syntax(out: &mut Vec<u8>, at: u32) -> Result<(), AllocError>
    ensures { OnOk result (out.new.items ≡ out.old.items ++ reply_text (Syntax at)) }
{
    out.extend_from_slice(b"refused 1064 syntax at byte ")?;
    push_number(out, u64::from(at))
}

/// Writes behind what `out` holds what follows the word `collision`: the address that two byte strings have, the one that
/// was held and the one that was brought, each behind a space, the strings in hex. Where memory was wanting, nothing is said of
/// `out`.
pub(crate) fn push_clash(alloc: Global, out: &mut Vec<u8>, clash: &Clash) -> Result<(), AllocError>
    ensures { OnOk result (out.new.items ≡ out.old.items ++ clash_text clash.now) }
{
    push_address(out, &clash.address)?;
    push_hex(alloc, out, b' ', clash.first.as_slice())?;
    push_hex(alloc, out, b' ', clash.second.as_slice())
}

/// Writes a space and an address.
fn push_address(out: &mut Vec<u8>, address: &Address) -> Result<(), AllocError>
    ensures { OnOk result (out.new.items ≡ out.old.items ++ 32 ∷ address_text address.now.0) }
{
    out.push(b' ')?;
    out.extend_from_slice(&address.text())
}

/// Writes a mark and bytes in hex.
pub fn push_hex(alloc: Global, out: &mut Vec<u8>, mark: u8, bytes: &[u8]) -> Result<(), AllocError>
    ensures { OnOk result (out.new.items ≡ out.old.items ++ mark ∷ encode_lower bytes.now) }
{
    out.push(mark)?;
    let digits = hex::encode(alloc, bytes)?;
    out.extend_from_slice(digits.as_bytes())
}

fn push_branches(out: &mut Vec<u8>, branches: &[BranchLine]) -> Result<(), AllocError>
    ensures { OnOk result (out.new.items ≡ out.old.items ++ flat_map branch_line branches.now) }
{
    for branch in branches {
        push_branch(out, branch)?;
    }
    Ok(())
}

fn push_branch(out: &mut Vec<u8>, branch: &BranchLine) -> Result<(), AllocError>
    ensures { OnOk result (out.new.items ≡ out.old.items ++ branch_line branch.now) }
{
    out.extend_from_slice(b"branch ")?;
    out.extend_from_slice(branch.name.as_slice())?;
    push_address(out, &branch.rec.head)?;
    push_address(out, &branch.rec.working)?;
    push_address(out, &branch.rec.staged)?;
    push_merging(out, &branch.rec.merging)?;
    out.extend_from_slice(b"\n")
}

/// Writes the commit of a merge in progress, if there is one.
fn push_merging(out: &mut Vec<u8>, merging: &Option<Address>) -> Result<(), AllocError>
    ensures { OnOk result (out.new.items ≡ out.old.items ++ merging_text merging.now) }
{
    match merging {
        Some(commit) => {
            out.extend_from_slice(b" merging")?;
            push_address(out, commit)
        }
        None => Ok(()),
    }
}

fn push_answer(alloc: Global, out: &mut Vec<u8>, answer: &Answer) -> Result<(), AllocError>
    ensures { OnOk result (out.new.items ≡ out.old.items ++ answer_text answer.now) }
{
    let rows = answer.rows.as_slice();
    out.extend_from_slice(b"rows ")?;
    push_number(out, rows.len() as u64)?;
    out.extend_from_slice(b"\n")?;
    push_names(out, answer.names.as_slice())?;
    push_rows(alloc, out, answer.kinds.as_slice(), rows)
}

/// Writes names with commas between them.
fn push_names(out: &mut Vec<u8>, names: &[Text]) -> Result<(), AllocError>
    ensures { OnOk result (out.new.items ≡ out.old.items ++ join_with_byte 44 names.now) }
{
    match names {
        [name, names @ ..] => {
            out.extend_from_slice(name.as_slice())?;
            push_more_names(out, names)
        }
        [] => Ok(()),
    }
}

/// Writes names with a comma before each.
fn push_more_names(out: &mut Vec<u8>, names: &[Text]) -> Result<(), AllocError>
    ensures { OnOk result (out.new.items ≡ out.old.items ++ flat_map (λ name. 44 ∷ name) names.now) }
{
    for name in names {
        out.push(b',')?;
        out.extend_from_slice(name.as_slice())?;
    }
    Ok(())
}

/// Writes rows with a line feed before each.
fn push_rows(
    alloc: Global,
    out: &mut Vec<u8>,
    kinds: &[SqlType],
    rows: &[Row],
) -> Result<(), AllocError>
    ensures { OnOk result (out.new.items ≡ out.old.items ++ row_lines kinds.now rows.now) }
{
    for row in rows {
        out.extend_from_slice(b"\n")?;
        push_row(alloc, out, kinds, row.as_slice())?;
    }
    Ok(())
}

/// Writes the order line behind what `out` holds. Where memory was wanting, nothing is said of `out`.
pub fn push_order(out: &mut Vec<u8>, names: &[Text], order: &[Moment]) -> Result<(), AllocError>
    ensures { OnOk result (out.new.items ≡ out.old.items ++ order_line names.now order.now) }
{
    out.extend_from_slice(b"order")?;
    push_moments(out, names, order)?;
    out.extend_from_slice(b"\n")
}

fn push_moments(out: &mut Vec<u8>, names: &[Text], order: &[Moment]) -> Result<(), AllocError>
    ensures { OnOk result (out.new.items ≡ out.old.items ++ flat_map (moment_text names.now) order.now) }
{
    for moment in order {
        push_moment(out, names, moment)?;
    }
    Ok(())
}

fn push_moment(out: &mut Vec<u8>, names: &[Text], moment: &Moment) -> Result<(), AllocError>
    ensures { OnOk result (out.new.items ≡ out.old.items ++ moment_text names.now moment.now) }
{
    out.extend_from_slice(b" ")?;
    if let Some(name) = names.get(moment.session as usize) {
        out.extend_from_slice(name.as_slice())?;
    }
    out.extend_from_slice(b"/")?;
    push_number(out, u64::from(moment.statement))
}
