//! Bytes read as a script.

ghost use Rattle.std.specs.Prelude.{◌≡◌, ◌≤◌, ◌<◌, ◌+◌, ◌∷◌, ◌==◌, false, length, position, unwrap_or, IfErr, IfOk, IfSome, OnOk};
ghost use Rattle.std.specs.Option.{option_map_or};
ghost use Rattle.script_text.specs.Input.{add_line, add_statement, bad, is_one_too_many, items_of, lines_of, most_bytes, most_sessions, no_script, ordered_by, ordered_from, place_of, script, script_from, with_name, with_statement, without_return};
ghost use Rattle.script_text.specs.LineParts.{lent_parts};
ghost use Rattle.script_text.specs.Reading.{Gives};
ghost use Rattle.script_text.specs.declared.faults.ScriptFault.TheVariants.{Bad, Memory};

use crate::faults::{BadScript, ScriptFault};
use crate::ordering::read_items;
use crate::parts::{LineParts, read_parts, says_nothing};
use crate::scripts::{Line, OrderItem, Script};
use std::alloc::Global;
use tuple_codec::{Sequence, Text, is_text};

const MOST_BYTES: usize = 16_777_216;

const MOST_STATEMENT_BYTES: usize = 65_536;

const MOST_SESSIONS: usize = 64;

const MOST_STATEMENTS: usize = 20_000;

/// The script that bytes hold, or the first line that breaks a rule with the least rule that it breaks. With an order, the first line that
/// isn't skipped is an order line: `order`, and behind each space an item `name/number`.
pub fn read_script(alloc: Global, bytes: &[u8], with_order: bool) -> Result<Script, ScriptFault>
    ensures { Gives result (script bytes.now with_order) }
{
    if bytes.len() > MOST_BYTES {
        return Err(broken(0, 1));
    }
    if with_order {
        read_ordered(alloc, bytes)
    } else {
        read_lines(alloc, bytes, 1, empty_script(alloc))
    }
}

fn broken(line: u32, rule: u8) -> ScriptFault
    ensures { result ≡ Bad (record { line = line; rule = rule }) }
{
    ScriptFault::Bad(BadScript { line, rule })
}

/// What a script says with the lines of bytes, of which the first has this number.
fn read_lines(alloc: Global, bytes: &[u8], number: u32, said: Script) -> Result<Script, ScriptFault>
    requires few { length said.names ≤ most_sessions }
    requires count { number + length bytes.now ≤ most_bytes + 1 }
    ensures { Gives result (script_from number said (lines_of bytes.now)) }
{
    let mut said = said;
    let mut number = number;
    let mut rest = bytes;
    'lines: while !rest.is_empty() {
        let (line, more) = next_line(rest);
        said = with_line(alloc, number, said, line)?;
        number += 1;
        rest = more;
    }
    Ok(said)
}

/// The script whose first line, those aside that are skipped, is an order line.
fn read_ordered(alloc: Global, bytes: &[u8]) -> Result<Script, ScriptFault>
    requires { length bytes.now ≤ most_bytes }
    ensures { Gives result (ordered_from 1 (lines_of bytes.now)) }
{
    let mut number: u32 = 1;
    let mut rest = bytes;
    'lines: while !rest.is_empty() {
        let (line, more) = next_line(rest);
        if !is_text(line) {
            return Err(broken(number, 2));
        }
        if !says_nothing(line) {
            return read_behind(alloc, line, number, more);
        }
        number += 1;
        rest = more;
    }
    Err(broken(number, 7))
}

/// The script that an order line of this number begins, and that goes on with the lines of `rest`.
fn read_behind(alloc: Global, line: &[u8], number: u32, rest: &[u8]) -> Result<Script, ScriptFault>
    requires { number + length rest.now ≤ most_bytes }
    ensures { Gives result (option_map_or (λ items. script_from (number + 1) (ordered_by items) (lines_of rest.now)) (items_of line.now) (bad number 7)) }
{
    match read_items(alloc, line)? {
        Some(items) => read_lines(alloc, rest, number + 1, ordered_script(alloc, items)),
        None => Err(broken(number, 7)),
    }
}

fn ordered_script(alloc: Global, items: Sequence<OrderItem>) -> Script
    ensures { result ≡ ordered_by items }
{
    Script {
        names: Sequence::new(alloc),
        lines: Sequence::new(alloc),
        order: Some(items),
    }
}

fn empty_script(alloc: Global) -> Script
    ensures { result ≡ no_script }
{
    Script {
        names: Sequence::new(alloc),
        lines: Sequence::new(alloc),
        order: None,
    }
}

/// The first line, without its end, and what follows it.
fn next_line(bytes: &[u8]) -> (&[u8], &[u8])
    requires { 0 < length bytes.now }
    ensures lines { lines_of bytes.now ≡ result.0.now ∷ lines_of result.1.now }
    ensures shorter { length result.1.now < length bytes.now }
{
    match find_feed(bytes) {
        Some(end) => (drop_return(&bytes[..end]), &bytes[end + 1..]),
        None => (bytes, &[]),
    }
}

fn find_feed(bytes: &[u8]) -> Option<usize>
    ensures feed { result ≡ position (λ byte. byte == 10) bytes.now }
    ensures within { IfSome result (λ end. end < length bytes.now) }
{
    bytes.iter().position(|byte| *byte == b'\n')
}

fn drop_return(line: &[u8]) -> &[u8]
    ensures { result.now ≡ without_return line.now }
{
    match line {
        [rest @ .., b'\r'] => rest,
        _ => line,
    }
}

/// What the script says with one more line.
fn with_line(alloc: Global, number: u32, said: Script, line: &[u8]) -> Result<Script, ScriptFault>
    requires { length said.names ≤ most_sessions }
    ensures gives { Gives result (add_line number said line.now) }
    ensures few { IfOk result (λ more. length more.names ≤ most_sessions) }
{
    if !is_text(line) {
        return Err(broken(number, 2));
    }
    if says_nothing(line) {
        return Ok(said);
    }
    match read_parts(line) {
        Some(parts) => with_parts(alloc, number, said, &parts),
        None => Err(broken(number, 3)),
    }
}

fn with_parts(
    alloc: Global,
    number: u32,
    said: Script,
    parts: &LineParts<'_>,
) -> Result<Script, ScriptFault>
    requires { length said.names ≤ most_sessions }
    ensures gives { Gives result (add_statement number said (lent_parts parts.now)) }
    ensures few { IfOk result (λ more. length more.names ≤ most_sessions) }
{
    if parts.statement.len() > MOST_STATEMENT_BYTES {
        return Err(broken(number, 4));
    }
    if brings_too_many(said.names.as_slice(), parts.name) {
        return Err(broken(number, 5));
    }
    if said.lines.as_slice().len() >= MOST_STATEMENTS {
        return Err(broken(number, 6));
    }
    push_parts(alloc, said, parts)
}

fn find_name(names: &[Text], name: &[u8]) -> Option<usize>
    ensures { result ≡ place_of names.now name.now }
{
    names.iter().position(|other| other.is(name))
}

fn brings_too_many(names: &[Text], name: &[u8]) -> bool
    ensures { result ≡ is_one_too_many names.now name.now }
{
    find_name(names, name).is_none() && names.len() >= MOST_SESSIONS
}

fn push_parts(alloc: Global, said: Script, parts: &LineParts<'_>) -> Result<Script, ScriptFault>
    requires few { length said.names ≤ most_sessions }
    requires room { is_one_too_many said.names parts.now.name.now ≡ false }
    ensures gives { Gives result (Ok (with_statement said (lent_parts parts.now))) }
    ensures few { IfOk result (λ more. length more.names ≤ most_sessions) }
{
    let Script {
        mut names,
        mut lines,
        order,
    } = said;
    let session = session_of(alloc, &mut names, parts.name)?;
    let statement = Text::from_slice(alloc, parts.statement)?;
    lines.push(Line { session, statement })?;
    Ok(Script {
        names,
        lines,
        order,
    })
}

/// The place of the session of this name; a new one gets the next.
fn session_of(alloc: Global, names: &mut Sequence<Text>, name: &[u8]) -> Result<u32, ScriptFault>
    requires few { length names.old ≤ most_sessions }
    requires room { is_one_too_many names.old name.now ≡ false }
    ensures place { IfOk result (λ place. place ≡ unwrap_or (place_of names.old name.now) (length names.old)) }
    ensures names { OnOk result (names.new ≡ with_name names.old name.now) }
    ensures few { length names.new ≤ most_sessions }
    ensures fault { IfErr result (λ fault. fault ≡ Memory) }
{
    let count = names.as_slice().len();
    match find_name(names.as_slice(), name) {
        Some(place) => Ok(place as u32),
        None => {
            names.push(Text::from_slice(alloc, name)?)?;
            Ok(count as u32)
        }
    }
}
