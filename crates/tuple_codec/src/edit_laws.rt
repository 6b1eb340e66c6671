//! Laws about lists of rows, edits and changes, key by key, on a function that does nothing.

ghost use Rattle.tuple_codec.specs.ByKey.{ChangesFollow, EditsFollow, IsOneList};

/// Lists of rows, edits and changes are what stands at each key: edits put their values over the rows' own; changes name the keys whose
/// values differ, with both, and as edits of the first list they make the second; and two lists with the same value at each key are one.
pub fn edits_by_key()
    ensures edits { EditsFollow }
    ensures changes { ChangesFollow }
    ensures one { IsOneList }
{}
