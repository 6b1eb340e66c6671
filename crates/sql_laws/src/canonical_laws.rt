//! Laws about canonical texts, for the crates above: call one where a proof needs it. None does anything.

ghost use Rattle.std.specs.Prelude.{ℕ};
ghost use Rattle.sql_laws.specs.CanonicalLaws.{CountsOpen, GivesPieces, HasPieces, KeepsText, ReadsPieces, ReadsPiecesAt, ReadsText, ReadsWritten, SaysOneThing, StoresText};

/// The pieces of an expression's canonical text are read as what the text says, and what follows is left, where no expression goes on
/// with it and no call begins. At most 64 parentheses may be open at one place, or at each other limit so many.
pub fn law_of_canonical_pieces()
    ensures any { ReadsPieces }
    ensures at_each_limit { (depth : ℕ) → ReadsPiecesAt depth }
{}

/// The canonical text of an expression that a text can give has tokens, and these have the expression's pieces.
pub fn law_of_canonical_tokens()
    ensures { HasPieces }
{}

/// That text is read as what it says, where at most 64 parentheses are open at one place.
pub fn law_of_reading_text()
    ensures { ReadsText }
{}

/// What a canonical text says has that text, and expressions of one text say one thing.
pub fn law_of_one_text()
    ensures kept { KeepsText }
    ensures one { SaysOneThing }
{}

/// As many parentheses are open at one place of the pieces as `sql_text` counts, up to 65.
pub fn law_of_open_parentheses()
    ensures { CountsOpen }
{}

/// The pieces of the tokens of a text of UTF-8 have names and literals as a text gives them, and so has whatever is read of such pieces.
pub fn law_of_written_pieces()
    ensures pieces { GivesPieces }
    ensures read { ReadsWritten }
{}

/// The canonical text of an expression that a text can give is UTF-8 and is read back, where it isn't too deep: so a CHECK may be kept as its text.
pub fn law_of_stored_texts()
    ensures { StoresText }
{}
