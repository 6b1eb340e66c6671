//! What a key of ORDER BY orders by: an item by its number or name, or an expression.

ghost use Rattle.std.specs.Prelude.{◌≡◌, is_some, slice_get};
ghost use Rattle.std.specs.List.{position};
ghost use Rattle.sql_ast.specs.declared.expressions.Expr.{out-Expr};
ghost use Rattle.sql_text.specs.OrderKeys as spec;
ghost use Rattle.sql_text.specs.OrderKeys.{key_of, literal_key};
ghost use Rattle.sql_text.specs.SelectNames.{expression_of, is_column_named, is_item_named, is_named_by};

use sql_ast::{Expr, Literal, SelectItem};
use tuple_codec::Text;

/// What a key of ORDER BY orders by.
#[derive(Clone, Copy)]
pub enum Key {
    /// The item at this place, counted from 0.
    AtItem(usize),
    /// The key's own expression, over the sources.
    OverSources,
}

/// What a key of ORDER BY orders by, among the items as they are written; nothing where it is the number of no item.
pub fn order_key(items: &[SelectItem], expr: &Expr) -> Option<Key>
    ensures { result ≡ key_of items.now expr.now }
{
    match expr {
        Expr::Literal(literal) => literal_order(items, literal),
        Expr::Name(name) => Some(item_or_sources(first_named(items, name))),
        _ => Some(Key::OverSources),
    }
}

fn item_or_sources(place: Option<usize>) -> Key
    ensures { result ≡ spec.item_or_sources place }
{
    match place {
        Some(place) => Key::AtItem(place),
        None => Key::OverSources,
    }
}

fn literal_order(items: &[SelectItem], literal: &Literal) -> Option<Key>
    ensures { result ≡ literal_key items.now literal.now }
{
    match literal {
        Literal::Whole(number) => numbered(items, *number),
        _ => Some(Key::OverSources),
    }
}

/// The item of this number, counted from 1, where it is an expression.
fn numbered(items: &[SelectItem], number: u64) -> Option<Key>
    ensures { result ≡ spec.numbered items.now number }
{
    if 1 <= number && is_expression_at(items, number - 1) {
        Some(Key::AtItem((number - 1) as usize))
    } else {
        None
    }
}

fn is_expression_at(items: &[SelectItem], at: u64) -> bool
    ensures { result ≡ is_some (expression_of (slice_get items.now at)) }
{
    match items.get(at as usize) {
        Some(SelectItem::One(_)) => true,
        Some(SelectItem::AllOf(_)) | None => false,
    }
}

fn first_named(items: &[SelectItem], name: &Text) -> Option<usize>
    ensures { result ≡ position (is_item_named name.now) items.now }
{
    items.iter().position(|item| is_item_of_name(item, name))
}

fn is_item_of_name(item: &SelectItem, name: &Text) -> bool
    ensures { result ≡ is_item_named name.now item.now }
{
    match item {
        SelectItem::AllOf(_) => false,
        SelectItem::One(named) => has_name(&named.name, &named.expr, name),
    }
}

fn has_name(alias: &Option<Text>, expr: &Expr, name: &Text) -> bool
    ensures { result ≡ is_named_by name.now alias.now expr.now }
{
    match alias {
        Some(alias) => name.is(alias.as_slice()),
        None => is_column_of_name(expr, name),
    }
}

fn is_column_of_name(expr: &Expr, name: &Text) -> bool
    ensures { result ≡ is_column_named name.now (out-Expr expr.now) }
{
    match expr {
        Expr::Name(own) => name.is(own.as_slice()),
        Expr::Qualified(_, own) => name.is(own.as_slice()),
        _ => false,
    }
}
