//! A SELECT's items, and the names of its sources.

ghost use Rattle.std.specs.Prelude.{◌≡◌};
ghost use Rattle.sql_text.specs.SelectNames as names;

use sql_ast::{Items, SelectItem, TableSource};
use tuple_codec::Text;

/// The name that a source goes by.
pub fn source_name(source: &TableSource) -> &Text
    ensures { result.now ≡ names.source_name source.now }
{
    match &source.alias {
        Some(alias) => alias,
        None => &source.table,
    }
}

/// The items as they are written; none of `*` alone.
pub fn item_list(items: &Items) -> &[SelectItem]
    ensures { result.now ≡ names.item_list items.now }
{
    match items {
        Items::All => &[],
        Items::Listed(list) => list.as_slice(),
    }
}
