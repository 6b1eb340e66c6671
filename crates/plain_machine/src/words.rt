//! The words of the command line.

ghost use Rattle.std.specs.Prelude.{◌≡◌, map, string_bytes};
ghost use Rattle.plain_machine.specs.Words.{is_given, order_asked, order_named};

/// The line that tells the forms.
pub const USAGE: &[u8] = b"usage: plain_machine ordered|replay\n";

/// Where the order of a script's moments comes from.
#[derive(Clone, Copy, PartialEq, Eq)]
pub enum MomentOrder {
    /// The statements are run one after another, in the order of the script's lines.
    OfLines,
    /// The script gives it, in a line before its statements.
    Given,
}

impl MomentOrder {
    /// Whether the script gives the order.
    pub fn is_given(self) -> bool
        ensures { result ≡ is_given self }
    {
        matches!(self, MomentOrder::Given)
    }
}

/// The order that the words, without the program's name, ask for; `None` where they are neither of the two forms.
pub fn order_asked(words: &[String]) -> Option<MomentOrder>
    ensures { result ≡ order_asked (map (λ word. string_bytes word) words.now) }
{
    match words {
        [word] => order_named(word.as_str()),
        _ => None,
    }
}

fn order_named(word: &str) -> Option<MomentOrder>
    ensures { result ≡ order_named word.now }
{
    match word {
        "ordered" => Some(MomentOrder::OfLines),
        "replay" => Some(MomentOrder::Given),
        _ => None,
    }
}
