//! The text of each refusal.

ghost use Rattle.std.specs.Prelude.{◌≡◌};
ghost use Rattle.std.specs.Option.{option_map};
ghost use Rattle.script_text.specs.Output.{refusal_text};

/// The text of a refusal; none for a number that is no refusal.
pub fn refusal_words(number: u16) -> Option<&'static str>
    ensures { option_map (λ words. words.now) result ≡ refusal_text number }
{
    Some(match number {
        1 => "out of memory",
        2 => "out of memory after start",
        3 => "collision",
        1048 => "column cannot be null",
        1050 => "table exists",
        1054 => "unknown column",
        1062 => "duplicate key",
        1064 => "syntax",
        1136 => "column count",
        1146 => "no such table",
        1213 => "retry transaction",
        1264 => "out of range",
        1406 => "data too long",
        1451 => "parent row in use",
        1452 => "no parent row",
        3819 => "check violated",
        9001 => "type mismatch",
        9002 => "unresolved conflicts",
        9003 => "constraint violations",
        9004 => "no such branch or commit",
        9005 => "branch exists",
        9006 => "uncommitted changes",
        9007 => "nothing to commit",
        9008 => "bad procedure argument",
        9009 => "schema conflict",
        9010 => "limit",
        9011 => "unsettled tables",
        9012 => "no merge in progress",
        9013 => "outside the subset",
        9014 => "branch is checked out",
        9015 => "commit has not one parent",
        9016 => "pick conflicts",
        9017 => "not a fast-forward",
        _ => return None,
    })
}
