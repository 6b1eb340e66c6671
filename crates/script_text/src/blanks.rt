//! Spaces and tabs between the parts of a line.

ghost use Rattle.std.specs.Prelude.{◌≡◌};
ghost use Rattle.script_text.specs.Input.{is_blank, trimmed, without_leading, without_trailing};

/// Whether a byte is a space or a tab.
pub fn is_blank_byte(byte: u8) -> bool
    ensures { result ≡ is_blank byte }
{
    byte == b' ' || byte == b'\t'
}

/// The bytes without the blanks before and behind them.
pub fn trim(bytes: &[u8]) -> &[u8]
    ensures { result.now ≡ trimmed bytes.now }
{
    trim_end(trim_start(bytes))
}

/// The bytes without the blanks before them.
pub fn trim_start(bytes: &[u8]) -> &[u8]
    ensures { result.now ≡ without_leading bytes.now }
{
    let mut rest = bytes;
    'front: while let [first, more @ ..] = rest {
        if !is_blank_byte(*first) {
            return rest;
        }
        rest = more;
    }
    rest
}

/// The bytes without the blanks behind them.
pub fn trim_end(bytes: &[u8]) -> &[u8]
    ensures { result.now ≡ without_trailing bytes.now }
{
    let mut end = bytes.len();
    'back: while end > 0 {
        if !is_blank_byte(bytes[end - 1]) {
            return &bytes[..end];
        }
        end -= 1;
    }
    &bytes[..0]
}
