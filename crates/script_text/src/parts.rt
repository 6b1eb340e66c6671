//! The parts of a line that begins with a session's name.

ghost use Rattle.std.specs.Prelude.{◌≡◌, ◌≤◌, drop, length, nat_eq, take_while};
ghost use Rattle.std.specs.List.{list_all, starts_with};
ghost use Rattle.std.specs.Option.{option_map};
ghost use Rattle.script_text.specs.Input.{if_any, is_blank, is_name, is_name_byte, is_skipped, parts_after, parts_of, statement_in};
ghost use Rattle.script_text.specs.LineParts.{lent_parts};

use crate::blanks::{is_blank_byte, trim, trim_end};

const MOST_NAME_BYTES: usize = 32;

/// A line `@name statement;`.
#[derive(Clone, Copy)]
pub struct LineParts<'a> {
    pub name: &'a [u8],
    pub statement: &'a [u8],
}

/// Whether a line says nothing: it is blank, or a comment.
pub fn says_nothing(line: &[u8]) -> bool
    ensures { result ≡ is_skipped line.now }
{
    is_all_blank(line) || begins_with(line, b"#") || begins_with(line, b"--")
}

fn is_all_blank(line: &[u8]) -> bool
    ensures { result ≡ list_all is_blank line.now }
{
    line.iter().all(|byte| is_blank_byte(*byte))
}

/// Whether a line begins with a mark.
pub fn begins_with(line: &[u8], mark: &[u8]) -> bool
    ensures { result ≡ starts_with nat_eq line.now mark.now }
{
    line.starts_with(mark)
}

/// The parts of a line `@name statement;`, if it has this form.
pub fn read_parts(line: &[u8]) -> Option<LineParts<'_>>
    ensures { option_map lent_parts result ≡ parts_of line.now }
{
    match line {
        [b'@', rest @ ..] => {
            let (name, rest) = split_name(rest);
            parts_behind(name, rest)
        }
        _ => None,
    }
}

/// The bytes of a name in front, and what follows them.
pub fn split_name(bytes: &[u8]) -> (&[u8], &[u8])
    ensures name { result.0.now ≡ take_while is_name_byte bytes.now }
    ensures rest { result.1.now ≡ drop (length (take_while is_name_byte bytes.now)) bytes.now }
{
    bytes.split_at(name_length(bytes))
}

fn name_length(bytes: &[u8]) -> usize
    ensures length { result ≡ length (take_while is_name_byte bytes.now) }
    ensures within { result ≤ length bytes.now }
{
    bytes
        .iter()
        .take_while(|byte| is_name_letter(**byte))
        .count()
}

fn is_name_letter(byte: u8) -> bool
    ensures { result ≡ is_name_byte byte }
{
    byte.is_ascii_alphanumeric() || byte == b'_'
}

/// Whether a name has as many bytes as one may have.
pub fn is_name_long(name: &[u8]) -> bool
    ensures { result ≡ is_name name.now }
{
    !name.is_empty() && name.len() <= MOST_NAME_BYTES
}

fn parts_behind<'a>(name: &'a [u8], rest: &'a [u8]) -> Option<LineParts<'a>>
    ensures { option_map lent_parts result ≡ parts_after name.now rest.now }
{
    if !(is_name_long(name) && begins_with(rest, b" ")) {
        return None;
    }
    match read_statement(rest) {
        Some(statement) => Some(LineParts { name, statement }),
        None => None,
    }
}

/// The statement before the semicolon that ends these bytes, if there is one.
fn read_statement(bytes: &[u8]) -> Option<&[u8]>
    ensures { option_map (λ s. s.now) result ≡ statement_in bytes.now }
{
    match trim_end(bytes) {
        [body @ .., b';'] => some_statement(trim(body)),
        _ => None,
    }
}

fn some_statement(statement: &[u8]) -> Option<&[u8]>
    ensures { option_map (λ s. s.now) result ≡ if_any statement.now }
{
    if statement.is_empty() {
        None
    } else {
        Some(statement)
    }
}
