//! Where two texts differ.

ghost use Rattle.std.specs.Prelude.{◌≡◌, ◌↔◌, IsNone};

use std::fmt::{self, Display, Formatter, Write};

/// The first line at which two texts differ, counted from 1, and what stands there in each, if anything does.
#[derive(Clone, Copy)]
pub struct Difference<'a> {
    line: usize,
    wanted: &'a str,
    written: &'a str,
}

impl<'a> Display for Difference<'a> {
    fn fmt<W: Write>(&self, f: &mut Formatter<W>) -> fmt::Result {
        write!(
            f,
            "line {}\n  wanted:  {}\n  written: {}",
            self.line, self.wanted, self.written
        )
    }
}

/// Where the texts differ, if they do.
pub fn first_difference<'a>(wanted: &'a str, written: &'a str) -> Option<Difference<'a>>
    ensures { IsNone result ↔ (wanted.now ≡ written.now) }
{
    if wanted == written {
        return None;
    }
    let before = count_of_equal_lines(wanted, written);
    Some(Difference {
        line: before.saturating_add(1),
        wanted: wanted.lines().nth(before).unwrap_or(""),
        written: written.lines().nth(before).unwrap_or(""),
    })
}

/// How many lines are the same before the first that differs.
fn count_of_equal_lines(wanted: &str, written: &str) -> usize {
    wanted
        .lines()
        .zip(written.lines())
        .take_while(|(one, other)| one == other)
        .count()
}
