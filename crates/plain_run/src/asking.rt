//! A script that asks for an order of moments.

ghost use Rattle.std.specs.Prelude.{◌≡◌, ◌<◌, IfOk, length, map, true};
ghost use Rattle.std.specs.List.{list_all};
ghost use Rattle.script_text.specs.Shown.{is_printable_moment};
ghost use Rattle.plain_run.specs.Asking.{asking, item_of};

use script_text::{Line, Moment, OrderItem, Script};
use std::alloc::{AllocError, Global};
use tuple_codec::{Sequence, Text};

/// Whether each moment is one of a session that has a name.
pub(crate) fn are_of_sessions(names: &[Text], order: &[Moment]) -> bool
    ensures { result ≡ list_all (is_printable_moment (length names.now)) order.now }
{
    order
        .iter()
        .all(|moment| (moment.session as usize) < names.len())
}

/// A copy of the script, with these moments as the order that it gives.
pub(crate) fn ask_along(
    alloc: Global,
    script: &Script,
    order: &[Moment],
) -> Result<Script, AllocError>
    requires { list_all (is_printable_moment (length script.now.names)) order.now ≡ true }
    ensures { IfOk result (λ made. made ≡ asking script.now order.now) }
{
    let names = script.names.as_slice();
    Ok(Script {
        names: copy_names(alloc, names)?,
        lines: copy_lines(alloc, script.lines.as_slice())?,
        order: Some(items_of(alloc, names, order)?),
    })
}

fn copy_names(alloc: Global, names: &[Text]) -> Result<Sequence<Text>, AllocError>
    ensures { IfOk result (λ copy. copy ≡ names.now) }
{
    let mut copy = Sequence::new(alloc);
    for name in names {
        copy.push(Text::from_slice(alloc, name.as_slice())?)?;
    }
    Ok(copy)
}

fn copy_lines(alloc: Global, lines: &[Line]) -> Result<Sequence<Line>, AllocError>
    ensures { IfOk result (λ copy. copy ≡ lines.now) }
{
    let mut copy = Sequence::new(alloc);
    for line in lines {
        copy.push(copy_line(alloc, line)?)?;
    }
    Ok(copy)
}

fn copy_line(alloc: Global, line: &Line) -> Result<Line, AllocError>
    ensures { IfOk result (λ copy. copy ≡ line.now) }
{
    Ok(Line {
        session: line.session,
        statement: Text::from_slice(alloc, line.statement.as_slice())?,
    })
}

/// The moments as an order line names them.
fn items_of(
    alloc: Global,
    names: &[Text],
    order: &[Moment],
) -> Result<Sequence<OrderItem>, AllocError>
    requires { list_all (is_printable_moment (length names.now)) order.now ≡ true }
    ensures { IfOk result (λ items. items ≡ map (item_of names.now) order.now) }
{
    let mut items = Sequence::new(alloc);
    for moment in order {
        items.push(item_of(alloc, names, moment)?)?;
    }
    Ok(items)
}

fn item_of(alloc: Global, names: &[Text], moment: &Moment) -> Result<OrderItem, AllocError>
    requires { moment.now.session < length names.now }
    ensures { IfOk result (λ item. item ≡ item_of names.now moment.now) }
{
    let name = &names[moment.session as usize];
    Ok(OrderItem {
        name: Text::from_slice(alloc, name.as_slice())?,
        statement: moment.statement,
    })
}
