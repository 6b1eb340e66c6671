//! A law, for proofs above: call it where a proof needs it. It does nothing.

ghost use Rattle.table_root.specs.Rows.{RowItemsFollow};

use tuple_codec::keys_keep_order;

/// Items keep the order of rows, a row has one item of its own, and an address stands for one list of rows.
pub fn law_of_row_items()
    ensures { RowItemsFollow }
{
    keys_keep_order();
}
