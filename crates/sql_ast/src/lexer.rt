//! A text read byte by byte into tokens, up to its first bad one.

ghost use Rattle.std.specs.Prelude.{◌≡◌, ◌^◌, ◌<◌, length, IfOk, OnOk};
ghost use Rattle.sql_ast.specs.Lexing.{Goes, LexingGives};
ghost use Rattle.sql_ast.specs.Slices.{AreSlices};
ghost use Rattle.sql_ast.specs.Tokens.{begun, closed, closed_sign, closed_word, end_decimal, end_point, end_whole, ended, gone_on, noted, nothing_read, opened, step, taken, tokens, with_digit, with_point};
ghost use Rattle.sql_ast.specs.declared.faults.ReadFault.TheVariants.{Refused};
ghost use Rattle.sql_ast.specs.declared.places.Last.TheVariants.{Operand};

use crate::bytes::{lower_case, separates};
use crate::faults::{ReadFault, Refusal};
use crate::held::Held;
use crate::marks::{after_sign_of, after_word, first_place_of, most_whole_after, place_after};
use crate::places::{Last, LexerState};
use crate::signs::Sign;
use crate::token_lists::TokenList;
use crate::tokens::{Token, TokenKind};
use std::alloc::{AllocError, Global};

/// What each whole literal above 2^63 reads as.
const TOO_LARGE: u64 = (1 << 63) + 1;

const MOST_DECIMAL_DIGITS: u8 = 18;

/// What was read of a text: the open token, and the closed ones.
#[derive(Drop)]
pub struct Reading {
    pub place: LexerState,
    /// Where the open token begins.
    pub start: u32,
    /// An open word, in lower case.
    pub held: Held,
    /// An open literal's digits as a number, and how many they are.
    pub value: u64,
    pub digits: u8,
    pub last: Last,
    pub done: TokenList,
}

/// The tokens of a text, or why its first bad token is refused.
pub fn lex(alloc: Global, text: &[u8]) -> Result<TokenList, ReadFault>
    requires { length text.now < 2 ^ 32 }
    ensures read { LexingGives (tokens text.now) result }
    ensures slices { IfOk result (λ found. AreSlices text.now 0 found (length text.now)) }
{
    match read_to_end(alloc, text) {
        Ok(found) => Ok(found),
        Err(fault) => Err(fault),
    }
}

fn read_to_end(alloc: Global, text: &[u8]) -> Result<TokenList, ReadFault>
    requires { length text.now < 2 ^ 32 }
    ensures { LexingGives (tokens text.now) result }
{
    let mut reading = Reading::new(alloc);
    let mut at = 0u32;
    for byte in text {
        reading.step_by(at, *byte)?;
        at += 1;
    }
    reading.end_at(at)?;
    Ok(reading.done)
}

fn bad_at(start: u32) -> ReadFault
    ensures { result ≡ Refused (record { number = 1064; at = start }) }
{
    ReadFault::Refused(Refusal {
        number: 1064,
        at: start,
    })
}

fn too_large() -> ReadFault
    ensures { result ≡ Refused (record { number = 1264; at = 0 }) }
{
    ReadFault::Refused(Refusal {
        number: 1264,
        at: 0,
    })
}

impl Reading {
    /// Nothing read yet.
    fn new(alloc: Global) -> Reading
        ensures { result ≡ nothing_read }
    {
        Reading {
            place: LexerState::Between,
            start: 0,
            held: Held::new(alloc),
            value: 0,
            digits: 0,
            last: Last::Other,
            done: TokenList::new(alloc),
        }
    }

    fn count_digit(&mut self, byte: u8)
        ensures { self.new ≡ with_digit byte self.old }
    {
        let digit = u64::from(byte.saturating_sub(b'0'));
        self.value = self
            .value
            .saturating_mul(10)
            .saturating_add(digit)
            .min(TOO_LARGE);
        self.digits = self.digits.saturating_add(1).min(MOST_DECIMAL_DIGITS + 1);
    }

    fn note(&mut self, place: LexerState, byte: u8) -> Result<(), AllocError>
        ensures { OnOk result (self.new ≡ noted place byte self.old) }
    {
        match place {
            LexerState::InWord | LexerState::AfterX => self.held.push(lower_case(byte)),
            LexerState::InWhole | LexerState::InDecimal => {
                self.count_digit(byte);
                Ok(())
            }
            _ => Ok(()),
        }
    }

    /// Takes a byte into the open token, which is at this place then.
    fn take(&mut self, place: LexerState, byte: u8) -> Result<(), AllocError>
        ensures { OnOk result (self.new ≡ taken place byte self.old) }
    {
        self.place = place;
        self.note(place, byte)
    }

    fn close(&mut self, kind: TokenKind, at: u32, last: Last) -> Result<(), AllocError>
        ensures { OnOk result (self.new ≡ closed kind at last self.old) }
    {
        let start = self.start;
        self.place = LexerState::Between;
        self.held.clear();
        self.value = 0;
        self.digits = 0;
        self.last = last;
        self.done.push(Token {
            kind,
            start,
            end: at,
        })
    }

    fn close_word(&mut self, at: u32) -> Result<(), AllocError>
        ensures { OnOk result (self.new ≡ closed_word at self.old) }
    {
        let last = after_word(self.held.as_slice());
        self.close(TokenKind::Word, at, last)
    }

    fn close_sign(&mut self, sign: Sign, at: u32) -> Result<(), AllocError>
        ensures { OnOk result (self.new ≡ closed_sign sign at self.old) }
    {
        let last = after_sign_of(sign, self.last);
        self.close(TokenKind::Sign, at, last)
    }

    fn end_whole_at(&mut self, at: u32) -> Result<(), ReadFault>
        ensures { Goes (end_whole at self.old) result self.new }
    {
        if self.value > most_whole_after(self.last) {
            return Err(too_large());
        }
        self.close(TokenKind::Whole, at, Last::Operand)?;
        Ok(())
    }

    fn close_point(&mut self, at: u32) -> Result<(), AllocError>
        ensures { OnOk result (self.new ≡ with_point at self.old) }
    {
        self.start = at.saturating_sub(1);
        self.close_sign(Sign::Point, at)
    }

    /// Ends a whole literal, and a point behind it that isn't the literal's.
    fn end_point_at(&mut self, at: u32) -> Result<(), ReadFault>
        ensures { Goes (end_point at self.old) result self.new }
    {
        self.end_whole_at(at.saturating_sub(1))?;
        self.close_point(at)?;
        Ok(())
    }

    fn end_decimal_at(&mut self, at: u32) -> Result<(), ReadFault>
        ensures { Goes (end_decimal at self.old) result self.new }
    {
        if self.digits > MOST_DECIMAL_DIGITS {
            return Err(too_large());
        }
        self.close(TokenKind::Decimal, at, Last::Operand)?;
        Ok(())
    }

    fn close_operand(&mut self, kind: TokenKind, at: u32) -> Result<(), ReadFault>
        ensures { Goes (Ok (closed kind at Operand self.old)) result self.new }
    {
        self.close(kind, at, Last::Operand)?;
        Ok(())
    }

    /// Ends the open token, if there is one, before a byte or the text's end at `at`.
    fn end_at(&mut self, at: u32) -> Result<(), ReadFault>
        ensures { Goes (ended self.old.place at self.old) result self.new }
    {
        match self.place {
            LexerState::Between => Ok(()),
            LexerState::InWord | LexerState::AfterX => {
                self.close_word(at)?;
                Ok(())
            }
            LexerState::InWhole => self.end_whole_at(at),
            LexerState::AtPoint => self.end_point_at(at),
            LexerState::InDecimal => self.end_decimal_at(at),
            LexerState::AfterQuote(_) => self.close_operand(TokenKind::Text, at),
            LexerState::AfterBytes => self.close_operand(TokenKind::Bytes, at),
            LexerState::AfterName => self.close_operand(TokenKind::Quoted, at),
            LexerState::AfterSign(sign) => {
                self.close_sign(sign, at)?;
                Ok(())
            }
            LexerState::InString(_)
            | LexerState::AfterSlash(_)
            | LexerState::HexEven
            | LexerState::HexOdd
            | LexerState::NameStart
            | LexerState::InName
            | LexerState::AfterHalf(_) => Err(bad_at(self.start)),
        }
    }

    fn open(&mut self, first: Option<LexerState>, at: u32, byte: u8) -> Result<(), ReadFault>
        ensures { Goes (opened first at byte self.old) result self.new }
    {
        match first {
            Some(place) => {
                self.start = at;
                self.take(place, byte)?;
                Ok(())
            }
            None => Err(bad_at(at)),
        }
    }

    /// Reads a byte between two tokens.
    fn begin_with(&mut self, at: u32, byte: u8) -> Result<(), ReadFault>
        ensures { Goes (begun at byte self.old) result self.new }
    {
        if separates(byte) {
            return Ok(());
        }
        self.open(first_place_of(byte), at, byte)
    }

    fn go_on(&mut self, next: Option<LexerState>, at: u32, byte: u8) -> Result<(), ReadFault>
        ensures { Goes (gone_on next at byte self.old) result self.new }
    {
        match next {
            Some(place) => {
                self.take(place, byte)?;
                Ok(())
            }
            None => {
                self.end_at(at)?;
                self.begin_with(at, byte)
            }
        }
    }

    /// Reads one more byte of the text.
    fn step_by(&mut self, at: u32, byte: u8) -> Result<(), ReadFault>
        ensures { Goes (step at byte self.old) result self.new }
    {
        self.go_on(place_after(self.place, byte), at, byte)
    }
}
