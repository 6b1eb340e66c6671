//! Lists put behind lists.

ghost use Rattle.std.specs.Prelude.{◌≡◌, ◌++◌, OnOk};

use std::alloc::AllocError;
use tuple_codec::Sequence;

/// Puts items behind those of a list.
pub fn append<T: Drop>(items: &mut Sequence<T>, more: Sequence<T>) -> Result<(), AllocError>
    ensures { OnOk result (items.new ≡ items.old ++ more) }
{
    for item in more.into_vec() {
        items.push(item)?;
    }
    Ok(())
}
