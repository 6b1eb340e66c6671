//! Facts of the definitions, for the crates above.

ghost use Rattle.index_keep.specs.Laws.{IndexListsFollow};

use table_root::law_of_row_items;
use tuple_codec::keys_are_one_spelling;

/// The edits that edited rows make of an index come by rising key, and give the list of the rows that come of the list of the rows that
/// stood.
pub fn law_of_index_lists()
    ensures { IndexListsFollow }
{
    law_of_row_items();
    keys_are_one_spelling();
}
