//! The law that merging by what changed leaves what a merge over all keys gives. It does nothing.

ghost use Rattle.schema_merge.specs.Changes.{ChangesMerge};

/// Edits of ours, made of the changes from base to theirs and decided one by one, leave what a merge over all keys gives.
pub fn changes_merge()
    ensures { ChangesMerge }
{}
