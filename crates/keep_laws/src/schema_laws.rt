//! The laws of schemas, each on a function that does nothing.

ghost use Rattle.keep_laws.specs.SchemaLaws.{AllKeep, SchemasKeep};

/// A database that keeps the limits on data is one after each CREATE, DROP and ALTER that isn't refused.
pub fn schemas_keep()
    ensures { SchemasKeep }
{}

/// The same of every statement that writes.
pub fn all_keep()
    ensures { AllKeep }
{}
