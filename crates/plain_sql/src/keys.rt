//! What an ORDER BY orders by.

ghost use Rattle.std.specs.Prelude.{map, None, Some};
ghost use Rattle.sql_text.specs.SelectNames.{expression_of};
ghost use Rattle.sql_text.specs.declared.order_keys.Key.TheVariants.{AtItem};
ghost use Rattle.plain_sql.specs.Gives.{GivesBy};
ghost use Rattle.plain_sql.specs.Lists.{each};
ghost use Rattle.plain_sql.specs.Plans.{item_at, item_meant, shown_by, sort_key};
ghost use Rattle.plain_sql.specs.Seen.{key_seen, showing_seen};

use crate::binding::bound;
use crate::faults::Refused;
use crate::items::one_heading;
use crate::ranking::Sorter;
use crate::shown::Showing;
use expr_eval::ScopeColumn;
use sql_ast::{Expr, NamedExpr, OrderKey, SelectItem};
use sql_text::{Key, order_key};
use std::alloc::Global;
use tuple_codec::Sequence;

fn shown_by_item(
    alloc: Global,
    scope: &[ScopeColumn],
    expr: &Expr,
    named: &NamedExpr,
) -> Result<Showing, Refused>
    ensures { GivesBy showing_seen result (shown_by scope.now expr.now (Some named.now)) }
{
    let heading = one_heading(alloc, scope, named)?;
    Ok(heading.shown)
}

fn shown_by_itself(alloc: Global, scope: &[ScopeColumn], expr: &Expr) -> Result<Showing, Refused>
    ensures { GivesBy showing_seen result (shown_by scope.now expr.now None) }
{
    Ok(Showing::Of(bound(alloc, scope, expr)?))
}

fn shown_by_found(
    alloc: Global,
    scope: &[ScopeColumn],
    expr: &Expr,
    item: &SelectItem,
) -> Result<Showing, Refused>
    ensures { GivesBy showing_seen result (shown_by scope.now expr.now (expression_of (Some item.now))) }
{
    match item {
        SelectItem::AllOf(_) => shown_by_itself(alloc, scope, expr),
        SelectItem::One(named) => shown_by_item(alloc, scope, expr, named),
    }
}

fn shown_at(
    alloc: Global,
    scope: &[ScopeColumn],
    list: &[SelectItem],
    expr: &Expr,
    place: usize,
) -> Result<Showing, Refused>
    ensures { GivesBy showing_seen result (shown_by scope.now expr.now (item_at list.now (Some (AtItem place)))) }
{
    match list.get(place) {
        Some(item) => shown_by_found(alloc, scope, expr, item),
        None => shown_by_itself(alloc, scope, expr),
    }
}

fn shown_by(
    alloc: Global,
    scope: &[ScopeColumn],
    list: &[SelectItem],
    expr: &Expr,
) -> Result<Showing, Refused>
    ensures { GivesBy showing_seen result (shown_by scope.now expr.now (item_meant list.now expr.now)) }
{
    match order_key(list, expr) {
        Some(Key::AtItem(place)) => shown_at(alloc, scope, list, expr, place),
        Some(Key::OverSources) | None => shown_by_itself(alloc, scope, expr),
    }
}

fn sort_key(
    alloc: Global,
    scope: &[ScopeColumn],
    list: &[SelectItem],
    key: &OrderKey,
) -> Result<Sorter, Refused>
    ensures { GivesBy key_seen result (sort_key scope.now list.now key.now) }
{
    Ok(Sorter {
        shown: shown_by(alloc, scope, list, &key.expr)?,
        direction: key.direction,
    })
}

/// Each key of ORDER BY, up to the first refusal.
pub fn sort_keys(
    alloc: Global,
    scope: &[ScopeColumn],
    list: &[SelectItem],
    keys: &[OrderKey],
) -> Result<Sequence<Sorter>, Refused>
    ensures { GivesBy (map key_seen) result (each (sort_key scope.now list.now) keys.now) }
{
    let mut sorters = Sequence::new(alloc);
    for key in keys {
        sorters.push(sort_key(alloc, scope, list, key)?)?;
    }
    Ok(sorters)
}
