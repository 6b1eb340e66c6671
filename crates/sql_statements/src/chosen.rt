//! What a SELECT shows.

ghost use Rattle.std.specs.Prelude.{◌≡◌, [], OnOk, IfOk};
ghost use Rattle.sql_grammar.specs.Reading.{Reads};
ghost use Rattle.sql_statements.specs.Selects as spec;

use sql_ast::{Expr, Items, Keyword, NamedExpr, SelectItem, Sign};
use sql_grammar::{Cursor, Stop, is_named, is_sign, read_any};
use std::alloc::{AllocError, Global};
use tuple_codec::{Sequence, Text};

/// An item, and whether it stands only before FROM.
#[derive(Drop)]
pub struct ShownItem {
    pub item: SelectItem,
    pub wants_from: bool,
}

/// Items, and whether one of them stands only before FROM.
#[derive(Drop)]
pub struct Listing {
    pub items: Sequence<SelectItem>,
    pub wants_from: bool,
}

/// What a SELECT shows, and whether that stands only before FROM.
#[derive(Drop)]
pub struct Choice {
    pub items: Items,
    pub wants_from: bool,
}

fn shown_one(expr: Expr, name: Option<Text>, wants_from: bool) -> ShownItem
    ensures { result ≡ spec.shown_one expr name wants_from }
{
    ShownItem {
        item: SelectItem::One(NamedExpr { expr, name }),
        wants_from,
    }
}

#[tactic(auto, unfolding(crate::specs::Selects::named))]
fn named(alloc: Global, cursor: &mut Cursor<'_>, expr: Expr) -> Result<ShownItem, Stop>
    ensures { Reads (spec.named expr cursor.old) result cursor.new }
{
    if cursor.eat_keyword(Keyword::As) {
        let name = cursor.name(alloc)?;
        return Ok(shown_one(expr, Some(name), false));
    }
    let name = cursor.optional_name(alloc)?;
    let wants_from = name.is_some();
    Ok(shown_one(expr, name, wants_from))
}

#[tactic(auto, unfolding(crate::specs::Selects::begins_all_of))]
fn begins_all_of(cursor: &Cursor<'_>) -> bool
    ensures { result ≡ spec.begins_all_of cursor.now }
{
    match cursor.rest() {
        [first, second, third, ..] => {
            is_named(first) && is_sign(Sign::Point, second) && is_sign(Sign::Star, third)
        }
        _ => false,
    }
}

#[tactic(auto, unfolding(crate::specs::Selects::all_of))]
fn all_of(alloc: Global, cursor: &mut Cursor<'_>) -> Result<ShownItem, Stop>
    ensures { Reads (spec.all_of cursor.old) result cursor.new }
{
    let source = cursor.name(alloc)?;
    cursor.skip();
    cursor.skip();
    Ok(ShownItem {
        item: SelectItem::AllOf(source),
        wants_from: true,
    })
}

#[tactic(auto, unfolding(crate::specs::Selects::one_item))]
fn one_item(alloc: Global, cursor: &mut Cursor<'_>) -> Result<ShownItem, Stop>
    ensures { Reads (spec.one_item cursor.old) result cursor.new }
{
    let expr = read_any(alloc, cursor)?;
    named(alloc, cursor, expr)
}

#[tactic(auto, unfolding(crate::specs::Selects::item))]
fn item(alloc: Global, cursor: &mut Cursor<'_>) -> Result<ShownItem, Stop>
    ensures { Reads (spec.item cursor.old) result cursor.new }
{
    if begins_all_of(cursor) {
        all_of(alloc, cursor)
    } else {
        one_item(alloc, cursor)
    }
}

fn first_of(alloc: Global, shown: ShownItem) -> Result<Listing, AllocError>
    ensures { IfOk result (λ found. found ≡ spec.first_of shown) }
{
    let mut items = Sequence::new(alloc);
    items.push(shown.item)?;
    Ok(Listing {
        items,
        wants_from: shown.wants_from,
    })
}

fn add(found: &mut Listing, shown: ShownItem) -> Result<(), AllocError>
    ensures { OnOk result (found.new ≡ spec.added found.old shown) }
{
    found.items.push(shown.item)?;
    found.wants_from = found.wants_from || shown.wants_from;
    Ok(())
}

#[tactic(auto, unfolding(crate::specs::Selects::listing, crate::specs::Selects::listing_from))]
fn all_listed(alloc: Global, cursor: &mut Cursor<'_>) -> Result<Listing, Stop>
    ensures { Reads (spec.listing cursor.old) result cursor.new }
{
    let mut found = first_of(alloc, item(alloc, cursor)?)?;
    for _turn in 0..cursor.left() {
        if !cursor.eat(Sign::Comma) {
            return Ok(found);
        }
        add(&mut found, item(alloc, cursor)?)?;
    }
    Ok(found)
}

/// What a SELECT shows, DISTINCT being taken already. What stands only before FROM is marked, not refused, since FROM may still come.
#[tactic(auto, unfolding(crate::specs::Selects::items))]
pub fn items(alloc: Global, cursor: &mut Cursor<'_>) -> Result<Choice, Stop>
    ensures { Reads (spec.items cursor.old) result cursor.new }
{
    if cursor.eat(Sign::Star) {
        return Ok(Choice {
            items: Items::All,
            wants_from: true,
        });
    }
    let found = all_listed(alloc, cursor)?;
    Ok(Choice {
        items: Items::Listed(found.items),
        wants_from: found.wants_from,
    })
}

#[tactic(auto, unfolding(crate::specs::Selects::named_from))]
fn named_from(
    alloc: Global,
    items: Vec<SelectItem>,
) -> Result<Option<Sequence<NamedExpr>>, AllocError>
    ensures { IfOk result (λ found. found ≡ spec.named_from [] items.items) }
{
    let mut found = Sequence::new(alloc);
    for item in items {
        match item {
            SelectItem::One(named) => found.push(named)?,
            SelectItem::AllOf(_) => return Ok(None),
        }
    }
    Ok(Some(found))
}

/// The items, where each is an expression; None where one is `*` or all columns of a source.
pub fn named_in(alloc: Global, items: Items) -> Result<Option<Sequence<NamedExpr>>, AllocError>
    ensures { IfOk result (λ found. found ≡ spec.named_in items) }
{
    match items {
        Items::All => Ok(None),
        Items::Listed(found) => named_from(alloc, found.into_vec()),
    }
}
