//! What a statement that writes keeps of a database.

ghost use Rattle.plain_writes.specs.WriteLaws.{WritesKeep};

/// A database that keeps the limits on data is one after each INSERT, UPDATE and DELETE that isn't refused.
pub fn writes_keep()
    ensures { WritesKeep }
{}
