//! What stands in written forms one after another: addresses, and tables with their names.

ghost use Rattle.std.specs.Prelude.{◌≡◌, ◌++◌, true, OnOk};
ghost use Rattle.std.specs.List.{flat_map, list_all};
ghost use Rattle.table_root.specs.Databases.{fits_name, has_address, named_bytes};
ghost use Rattle.table_root.specs.Tables.{is_address};

use crate::fields::push_address;
use crate::records::TableEntry;
use schema_model::{FormBytes, Readable, address_at, push_short};
use std::alloc::{AllocError, Global};
use tuple_codec::{Address, Text, Unread, short_at};

impl Readable for TableEntry {
    ghost use Rattle.table_root.specs.Reading.{named_at};

    ghost front = { named_at };

    #[tactic(auto, unfolding(crate::specs::Reading::named_at))]
    fn read(alloc: Global, bytes: &[u8]) -> Result<(TableEntry, &[u8]), Unread> {
        let (name, rest) = short_at(bytes)?;
        let (table, rest) = address_at(rest)?;
        let name = Text::from_slice(alloc, name)?;
        Ok((TableEntry { name, table }, rest))
    }
}

/// Writes addresses one after another.
pub(crate) fn push_addresses(out: &mut FormBytes, addresses: &[Address]) -> Result<(), AllocError>
    ensures bytes { OnOk result (out.new.items ≡ out.old.items ++ flat_map (λ address. address.0) addresses.now) }
    ensures whole { OnOk result (list_all is_address addresses.now ≡ true) }
{
    for address in addresses {
        push_address(out, address)?;
    }
    Ok(())
}

/// Writes tables one after another, each by its name and address.
pub(crate) fn push_tables(out: &mut FormBytes, tables: &[TableEntry]) -> Result<(), AllocError>
    requires { list_all fits_name tables.now ≡ true }
    ensures bytes { OnOk result (out.new.items ≡ out.old.items ++ flat_map named_bytes tables.now) }
    ensures whole { OnOk result (list_all has_address tables.now ≡ true) }
{
    for named in tables {
        push_table(out, named)?;
    }
    Ok(())
}

fn push_table(out: &mut FormBytes, named: &TableEntry) -> Result<(), AllocError>
    requires { fits_name named.now ≡ true }
    ensures bytes { OnOk result (out.new.items ≡ out.old.items ++ named_bytes named.now) }
    ensures whole { OnOk result (has_address named.now ≡ true) }
{
    push_short(out, named.name.as_slice())?;
    push_address(out, &named.table)
}
