//! Laws about statements, for the crates above: call one where a proof needs it. None does anything.

ghost use Rattle.sql_laws.specs.SoundLaws.{AltersKept, CreatesKept, ParsesSound, ReadsSound, StatementsStop};

/// Whatever is read of pieces that a text gives is sound; so whatever statement a text of UTF-8 is, it is sound and in the language.
pub fn law_of_sound_statements()
    ensures pieces { ReadsSound }
    ensures texts { ParsesSound }
{}

/// Where reading a statement stops at a piece, it stops there whatever stands behind that piece: no statement begins with the pieces up to it.
pub fn law_of_statement_stops()
    ensures { StatementsStop }
{}

/// The names and the texts of CHECKs that a sound CREATE or ALTER in the language gives to a table are ones that a table can keep.
pub fn law_of_kept_tables()
    ensures created { CreatesKept }
    ensures altered { AltersKept }
{}
