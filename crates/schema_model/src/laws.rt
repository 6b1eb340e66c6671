//! Laws for the crates above: call one where a proof needs it. None does anything.

ghost use Rattle.schema_model.specs.Items.{ItemsTell};
ghost use Rattle.schema_model.specs.PlainCommits.{AncestorsFollow};
ghost use Rattle.schema_model.specs.Sameness.{SamenessIsEquality};
ghost use Rattle.schema_model.specs.Spellings.{HasOneSpelling, SchemasAreShort};

/// Two schemas with the same bytes are one.
pub fn law_of_schemas()
    ensures { HasOneSpelling }
{}

/// Rows, schemas, tables and databases are the same by the tests exactly where they are equal.
pub fn law_of_sameness()
    ensures { SamenessIsEquality }
{}

/// A schema has fewer than 2^32 bytes.
pub fn law_of_sizes()
    ensures { SchemasAreShort }
{}

/// The list of a commit's ancestors has each once and in order, and the base is the first common one.
pub fn law_of_ancestors()
    ensures { AncestorsFollow }
{}

/// A row, a conflict and a violation each have an item of their own.
pub fn law_of_items()
    ensures { ItemsTell }
{}
