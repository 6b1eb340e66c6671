//! Numbers in decimal digits.

ghost use Rattle.std.specs.Prelude.{◌≡◌};
ghost use Rattle.std.specs.Char.{is_ascii_digit};
ghost use Rattle.std.specs.List.{list_all};
ghost use Rattle.script_text.specs.Numerals.{is_numeral, number};

/// The number that decimal digits without leading zeros write, where 64 bits hold it.
pub fn number_in(text: &str) -> Option<u64>
    ensures { result ≡ number text.now }
{
    if is_number(text.as_bytes()) {
        text.parse::<u64>().ok()
    } else {
        None
    }
}

/// Whether a text is decimal digits without leading zeros.
pub fn is_number(text: &[u8]) -> bool
    ensures { result ≡ is_numeral text.now }
{
    match text {
        [] => false,
        [first, rest @ ..] => are_digits(text) && (*first != b'0' || rest.is_empty()),
    }
}

fn are_digits(text: &[u8]) -> bool
    ensures { result ≡ list_all is_ascii_digit text.now }
{
    text.iter().all(|byte| byte.is_ascii_digit())
}
