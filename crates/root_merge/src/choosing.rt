//! Which table of a name is taken whole: the row rule's first cases on addresses, since equal addresses stand for equal tables.

ghost use Rattle.std.specs.Prelude.{◌≡◌, None, Some};
ghost use Rattle.tuple_codec.specs.RowRule.{same_option, three_way};
ghost use Rattle.root_merge.specs.Choosing.{address_in, chosen, same_address};

use table_root::TableEntry;
use tuple_codec::Address;

/// What becomes of the tables of one name.
#[derive(Drop)]
pub(crate) enum Choice {
    /// One of them is taken as it stands, or its absence.
    Whole(Option<Address>),
    /// Their rows are merged.
    Rows {
        base: Option<Address>,
        ours: Address,
        theirs: Address,
    },
    /// A side that changed the table meets its absence on the other.
    Nothing,
}

/// The address of the table of a name.
pub(crate) fn address_in(name: &[u8], tables: &[TableEntry]) -> Option<Address>
    ensures { result ≡ address_in name.now tables.now }
{
    match tables {
        [] => None,
        [named, rest @ ..] => {
            if named.name.as_slice() == name {
                Some(named.table)
            } else {
                address_in(name, rest)
            }
        }
    }
}

fn same(a: Option<Address>, b: Option<Address>) -> bool
    ensures { result ≡ same_option same_address a b }
{
    match (a, b) {
        (None, None) => true,
        (Some(a), Some(b)) => a == b,
        _ => false,
    }
}

/// The table that is taken whole, or its absence.
fn whole(
    base: Option<Address>,
    ours: Option<Address>,
    theirs: Option<Address>,
) -> Option<Option<Address>>
    ensures { result ≡ three_way (same_option same_address) base ours theirs }
{
    if same(theirs, base) {
        Some(ours)
    } else if same(ours, base) {
        Some(theirs)
    } else if same(ours, theirs) {
        Some(ours)
    } else {
        None
    }
}

/// The choice among tables at addresses, each of which may be absent.
pub(crate) fn chosen(
    base: Option<Address>,
    ours: Option<Address>,
    theirs: Option<Address>,
) -> Choice
    ensures { result ≡ chosen base ours theirs }
{
    match whole(base, ours, theirs) {
        Some(table) => Choice::Whole(table),
        None => match (ours, theirs) {
            (Some(ours), Some(theirs)) => Choice::Rows { base, ours, theirs },
            _ => Choice::Nothing,
        },
    }
}
