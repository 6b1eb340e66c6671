//! What arguments ask for, for each procedure but DOLT_COMMIT and DOLT_MERGE.

ghost use Rattle.std.specs.Prelude.{◌≡◌, map, IfOk, Some};
ghost use Rattle.std.specs.List.{list_all, list_any};
ghost use Rattle.std.specs.Str.{bytes_eq, str_eq_ignore_ascii_case, str_to_ascii_lowercase};
ghost use Rattle.sql_procedures.specs.Arguments.{add_of, all_or_named, are_tables, begins_with_minus, branch_of, checkout_of, is_message, is_name_byte, is_point, is_table, is_word, named_tables, new_branch, new_branch_at, point_of, repeats_table, reset_of, resolve_of, resolved, side_of, verify_of, way, ways};

use crate::requests::{
    BranchRequest, CheckoutRequest, NewBranch, Reset, Resolution, Side, Tables, Verification,
};
use std::alloc::{AllocError, Global};
use tuple_codec::{Sequence, Text};

const MOST_POINT_BYTES: usize = 64;

const MOST_MESSAGE_BYTES: usize = 8192;

/// Whether an argument is just this word.
pub fn is_option(argument: &Text, word: &[u8]) -> bool
    ensures { result ≡ is_word word.now argument.now }
{
    argument.is(word)
}

fn begins_as_option(argument: &Text) -> bool
    ensures { result ≡ begins_with_minus argument.now }
{
    match argument.as_slice() {
        [first, ..] => *first == b'-',
        [] => false,
    }
}

fn is_byte_of_name(byte: u8) -> bool
    ensures { result ≡ is_name_byte byte }
{
    b'a' <= byte && byte <= b'z'
        || b'A' <= byte && byte <= b'Z'
        || b'0' <= byte && byte <= b'9'
        || byte == b'_'
        || byte == b'-'
        || byte == b'.'
        || byte == b'/'
}

fn are_bytes_of_name(bytes: &[u8]) -> bool
    ensures { result ≡ list_all is_name_byte bytes.now }
{
    bytes.iter().all(|byte| is_byte_of_name(*byte))
}

/// Whether an argument has the form of a branch's name, which an address has too.
pub fn is_point_name(argument: &Text) -> bool
    ensures { result ≡ is_point argument.now }
{
    let bytes = argument.as_slice();
    1 <= bytes.len()
        && bytes.len() <= MOST_POINT_BYTES
        && are_bytes_of_name(bytes)
        && !begins_as_option(argument)
}

/// Whether an argument can be a commit's message.
pub fn is_message_text(argument: &Text) -> bool
    ensures { result ≡ is_message argument.now }
{
    let bytes = argument.as_slice();
    1 <= bytes.len() && bytes.len() <= MOST_MESSAGE_BYTES
}

fn names_table(argument: &Text) -> bool
    ensures { result ≡ is_table argument.now }
{
    !begins_as_option(argument) && !is_option(argument, b".")
}

fn all_name_tables(arguments: &[Text]) -> bool
    ensures { result ≡ list_all is_table arguments.now }
{
    arguments.iter().all(|argument| names_table(argument))
}

fn is_named_again(table: &Text, tables: &[Text]) -> bool
    ensures { result ≡ list_any (str_eq_ignore_ascii_case table.now) tables.now }
{
    tables.iter().any(|other| table.as_slice().eq_ignore_ascii_case(other.as_slice()))
}

/// Whether two arguments name one table, whose name is read without regard to case.
fn names_table_twice(arguments: &[Text]) -> bool
    ensures { result ≡ repeats_table arguments.now }
{
    for (at, table) in arguments.iter().enumerate() {
        if is_named_again(table, &arguments[at + 1..]) {
            return true;
        }
    }
    false
}

fn are_names_of_tables(arguments: &[Text]) -> bool
    ensures { result ≡ are_tables arguments.now }
{
    match arguments {
        [] => false,
        [_, ..] => all_name_tables(arguments) && !names_table_twice(arguments),
    }
}

/// A copy of an argument that is kept as it was written, as names of branches, points and messages are; names of tables go to lower case.
pub fn copied(alloc: Global, argument: &Text) -> Result<Text, AllocError>
    ensures { IfOk result (λ copy. copy ≡ argument.now) }
{
    Text::from_slice(alloc, argument.as_slice())
}

fn lowered(alloc: Global, argument: &Text) -> Result<Text, AllocError>
    ensures { IfOk result (λ name. name ≡ str_to_ascii_lowercase argument.now) }
{
    Ok(Text::from_vec(argument.as_slice().to_ascii_lowercase(alloc)?))
}

fn all_lowered(alloc: Global, arguments: &[Text]) -> Result<Sequence<Text>, AllocError>
    ensures { IfOk result (λ names. names ≡ map str_to_ascii_lowercase arguments.now) }
{
    let mut names = Sequence::new(alloc);
    for argument in arguments {
        names.push(lowered(alloc, argument)?)?;
    }
    Ok(names)
}

fn tables_named(alloc: Global, arguments: &[Text]) -> Result<Option<Tables>, AllocError>
    ensures { IfOk result (λ tables. tables ≡ named_tables arguments.now) }
{
    if are_names_of_tables(arguments) {
        Ok(Some(Tables::Named(all_lowered(alloc, arguments)?)))
    } else {
        Ok(None)
    }
}

/// What the arguments of DOLT_ADD ask for.
pub fn read_add(alloc: Global, arguments: &[Text]) -> Result<Option<Tables>, AllocError>
    ensures { IfOk result (λ tables. tables ≡ add_of arguments.now) }
{
    match arguments {
        [only] if is_option(only, b".") || is_option(only, b"-A") => Ok(Some(Tables::All)),
        _ => tables_named(alloc, arguments),
    }
}

/// What the arguments of DOLT_RESET ask for.
pub fn read_reset(alloc: Global, arguments: &[Text]) -> Result<Option<Reset>, AllocError>
    ensures { IfOk result (λ reset. reset ≡ reset_of arguments.now) }
{
    match arguments {
        [] => Ok(Some(Reset::Tables(Tables::All))),
        [only] if is_option(only, b"--hard") => Ok(Some(Reset::Hard)),
        _ => Ok(tables_named(alloc, arguments)?.map(Reset::Tables)),
    }
}

/// A copy of an argument that has a name's form.
fn read_point(alloc: Global, argument: &Text) -> Result<Option<Text>, AllocError>
    ensures { IfOk result (λ point. point ≡ point_of argument.now) }
{
    if is_point_name(argument) {
        Ok(Some(copied(alloc, argument)?))
    } else {
        Ok(None)
    }
}

fn read_new_branch(alloc: Global, name: &Text) -> Result<Option<NewBranch>, AllocError>
    ensures { IfOk result (λ made. made ≡ new_branch name.now) }
{
    match read_point(alloc, name)? {
        Some(name) => Ok(Some(NewBranch { name, point: None })),
        None => Ok(None),
    }
}

fn read_new_branch_at(
    alloc: Global,
    name: &Text,
    point: &Text,
) -> Result<Option<NewBranch>, AllocError>
    ensures { IfOk result (λ made. made ≡ new_branch_at name.now point.now) }
{
    if is_point_name(name) && is_point_name(point) {
        Ok(Some(NewBranch {
            name: copied(alloc, name)?,
            point: Some(copied(alloc, point)?),
        }))
    } else {
        Ok(None)
    }
}

/// What the arguments of DOLT_BRANCH ask for.
pub fn read_branch(alloc: Global, arguments: &[Text]) -> Result<Option<BranchRequest>, AllocError>
    ensures { IfOk result (λ request. request ≡ branch_of arguments.now) }
{
    match arguments {
        [name] => Ok(read_new_branch(alloc, name)?.map(BranchRequest::Create)),
        [first, name] if is_option(first, b"-d") || is_option(first, b"-D") => {
            Ok(read_point(alloc, name)?.map(BranchRequest::Delete))
        }
        [name, point] => { Ok(read_new_branch_at(alloc, name, point)?.map(BranchRequest::Create)) }
        _ => Ok(None),
    }
}

/// What the arguments of DOLT_CHECKOUT ask for.
pub fn read_checkout(
    alloc: Global,
    arguments: &[Text],
) -> Result<Option<CheckoutRequest>, AllocError>
    ensures { IfOk result (λ request. request ≡ checkout_of arguments.now) }
{
    match arguments {
        [name] => Ok(read_point(alloc, name)?.map(CheckoutRequest::Existing)),
        [first, name] if is_option(first, b"-b") => {
            Ok(read_new_branch(alloc, name)?.map(CheckoutRequest::New))
        }
        [first, name, point] if is_option(first, b"-b") => {
            Ok(read_new_branch_at(alloc, name, point)?.map(CheckoutRequest::New))
        }
        _ => Ok(None),
    }
}

fn read_side(argument: &Text) -> Option<Side>
    ensures { result ≡ side_of argument.now }
{
    if is_option(argument, b"--ours") {
        Some(Side::Ours)
    } else if is_option(argument, b"--theirs") {
        Some(Side::Theirs)
    } else {
        None
    }
}

fn read_all_or_named(alloc: Global, arguments: &[Text]) -> Result<Option<Tables>, AllocError>
    ensures { IfOk result (λ tables. tables ≡ all_or_named arguments.now) }
{
    match arguments {
        [only] if is_option(only, b".") => Ok(Some(Tables::All)),
        _ => tables_named(alloc, arguments),
    }
}

fn read_resolution(
    alloc: Global,
    side: Side,
    arguments: &[Text],
) -> Result<Option<Resolution>, AllocError>
    ensures { IfOk result (λ resolution. resolution ≡ resolved (Some side) arguments.now) }
{
    match read_all_or_named(alloc, arguments)? {
        Some(tables) => Ok(Some(Resolution { side, tables })),
        None => Ok(None),
    }
}

/// What the arguments of DOLT_CONFLICTS_RESOLVE ask for.
pub fn read_resolve(alloc: Global, arguments: &[Text]) -> Result<Option<Resolution>, AllocError>
    ensures { IfOk result (λ resolution. resolution ≡ resolve_of arguments.now) }
{
    match arguments {
        [] => Ok(None),
        [first, rest @ ..] => match read_side(first) {
            Some(side) => read_resolution(alloc, side, rest),
            None => Ok(None),
        },
    }
}

/// What the arguments of DOLT_VERIFY_CONSTRAINTS ask for.
pub fn read_verify(arguments: &[Text]) -> Option<Verification>
    ensures { result ≡ verify_of arguments.now }
{
    match arguments {
        [] => Some(Verification::Recorded),
        [only] => way_of(only),
        [first, second] => both_ways(first, second),
        _ => None,
    }
}

fn way_of(only: &Text) -> Option<Verification>
    ensures { result ≡ way only.now }
{
    if is_option(only, b"--all") {
        Some(Verification::Recorded)
    } else if is_option(only, b"--output-only") {
        Some(Verification::OutputOnly)
    } else {
        None
    }
}

fn both_ways(first: &Text, second: &Text) -> Option<Verification>
    ensures { result ≡ ways first.now second.now }
{
    if is_option(first, b"--all") && is_option(second, b"--output-only")
        || is_option(first, b"--output-only") && is_option(second, b"--all")
    {
        Some(Verification::OutputOnly)
    } else {
        None
    }
}
