//! The two lines that tell what was refused.

ghost use Rattle.std.specs.Prelude.{◌≡◌, ◌++◌, OnOk};
ghost use Rattle.program_run.specs.Loading.{trouble};

use script_text::{RunText, push_all_refused, push_order};
use std::alloc::{AllocError, Global};

/// Writes the order of moments, and every statement that no rule refused, behind what `out` holds. Where memory was wanting, nothing is
/// said of `out`.
pub(crate) fn push_trouble(
    alloc: Global,
    out: &mut Vec<u8>,
    run: &RunText,
) -> Result<(), AllocError>
    ensures { OnOk result (out.new.items ≡ out.old.items ++ trouble run.now) }
{
    push_order(out, run.names.as_slice(), run.order.as_slice())?;
    out.extend_from_slice(b"refused")?;
    push_all_refused(alloc, out, run.names.as_slice(), run.replies.as_slice())?;
    out.extend_from_slice(b"\n")
}
