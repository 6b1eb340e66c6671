//! The items of a SELECT, as headings.

ghost use Rattle.std.specs.Prelude.{◌≡◌, IfOk, map};
ghost use Rattle.sql_ast.specs.declared.expressions.Expr.{out-Expr};
ghost use Rattle.plain_sql.specs.Gives.{Gives, GivesBy};
ghost use Rattle.plain_sql.specs.Lists.{all_of, each};
ghost use Rattle.plain_sql.specs.Plans.{all_headings, column_heading, greatest_heading, has_source, heading_in, heading_of, headings_of, item_headings, least_heading, one_heading, own_name, shown_name, source_headings, sum_heading, type_at, type_of, value_heading};
ghost use Rattle.plain_sql.specs.Seen.{heading_seen};

use crate::binding::{bound, column_at};
use crate::faults::Refused;
use crate::lists::append;
use crate::shown::Showing;
use expr_eval::{BoundExpr, BoundNode, ScopeColumn};
use sql_ast::{Expr, Items, NamedExpr, SelectItem};
use sql_text::canonical_text;
use sql_values::Kind;
use std::alloc::{AllocError, Global};
use tuple_codec::{Sequence, SqlType, Text};

/// A column of the answer.
#[derive(Drop)]
pub struct Heading {
    pub name: Text,
    pub kind: SqlType,
    pub shown: Showing,
}

fn own_name(alloc: Global, expr: &Expr) -> Result<Text, AllocError>
    ensures { IfOk result (λ name. name ≡ own_name expr.now (out-Expr expr.now)) }
{
    match expr {
        Expr::Name(name) => Text::from_slice(alloc, name.as_slice()),
        Expr::Qualified(_, name) => Text::from_slice(alloc, name.as_slice()),
        _ => canonical_text(alloc, expr),
    }
}

/// An item's name: by AS, else by the column's name, else by the canonical text.
pub fn shown_name(alloc: Global, named: &NamedExpr) -> Result<Text, AllocError>
    ensures { IfOk result (λ name. name ≡ shown_name named.now.name named.now.expr) }
{
    match &named.name {
        Some(name) => Text::from_slice(alloc, name.as_slice()),
        None => own_name(alloc, &named.expr),
    }
}

fn type_at(scope: &[ScopeColumn], place: usize, kind: &Kind) -> SqlType
    ensures { result ≡ type_at scope.now place kind.now }
{
    match scope.get(place) {
        Some(column) => column.kind,
        None => kind.column_type(),
    }
}

/// A column of a source keeps its own type.
fn type_of(scope: &[ScopeColumn], bound: &BoundExpr) -> SqlType
    ensures { result ≡ type_of scope.now bound.now }
{
    match &bound.node {
        BoundNode::Column(_, place) => type_at(scope, *place, &bound.kind),
        _ => bound.kind.column_type(),
    }
}

fn value_heading(scope: &[ScopeColumn], name: Text, bound: BoundExpr) -> Result<Heading, Refused>
    ensures { GivesBy heading_seen result (value_heading scope.now name bound) }
{
    Ok(Heading {
        name,
        kind: type_of(scope, &bound),
        shown: Showing::Of(bound),
    })
}

fn sum_heading(name: Text, bound: BoundExpr) -> Result<Heading, Refused>
    ensures { GivesBy heading_seen result (sum_heading name bound) }
{
    match bound.kind {
        Kind::Int | Kind::Decimal(_) => Ok(Heading {
            name,
            kind: bound.kind.column_type(),
            shown: Showing::Sum(bound),
        }),
        _ => Err(Refused::By(9001)),
    }
}

fn least_heading(name: Text, bound: BoundExpr) -> Result<Heading, Refused>
    ensures { GivesBy heading_seen result (least_heading name bound) }
{
    Ok(Heading {
        name,
        kind: bound.kind.column_type(),
        shown: Showing::Least(bound),
    })
}

fn greatest_heading(name: Text, bound: BoundExpr) -> Result<Heading, Refused>
    ensures { GivesBy heading_seen result (greatest_heading name bound) }
{
    Ok(Heading {
        name,
        kind: bound.kind.column_type(),
        shown: Showing::Greatest(bound),
    })
}

/// What an item shows: an aggregate's call, or an expression. SUM of another kind than Int and Decimal is refused 9001.
pub fn heading_of(
    alloc: Global,
    scope: &[ScopeColumn],
    name: Text,
    expr: &Expr,
) -> Result<Heading, Refused>
    ensures { GivesBy heading_seen result (heading_of scope.now name expr.now (out-Expr expr.now)) }
{
    match expr {
        Expr::CountAll => Ok(Heading {
            name,
            kind: SqlType::BigInt,
            shown: Showing::Rows,
        }),
        Expr::Count(counted) => Ok(Heading {
            name,
            kind: SqlType::BigInt,
            shown: Showing::Count(bound(alloc, scope, counted.get())?),
        }),
        Expr::Sum(summed) => sum_heading(name, bound(alloc, scope, summed.get())?),
        Expr::Min(compared) => least_heading(name, bound(alloc, scope, compared.get())?),
        Expr::Max(compared) => greatest_heading(name, bound(alloc, scope, compared.get())?),
        _ => value_heading(scope, name, bound(alloc, scope, expr)?),
    }
}

/// The heading of an item that is an expression, also where ORDER BY means that item, or the first refusal as its names and kinds are found.
pub fn one_heading(
    alloc: Global,
    scope: &[ScopeColumn],
    named: &NamedExpr,
) -> Result<Heading, Refused>
    ensures { GivesBy heading_seen result (one_heading scope.now named.now) }
{
    let name = shown_name(alloc, named)?;
    heading_of(alloc, scope, name, &named.expr)
}

fn column_heading(
    alloc: Global,
    scope: &[ScopeColumn],
    place: usize,
    column: &ScopeColumn,
) -> Result<Heading, Refused>
    ensures { GivesBy heading_seen result (column_heading scope.now (place, column.now)) }
{
    let bound = column_at(scope, place)?;
    value_heading(
        scope,
        Text::from_slice(alloc, column.name.as_slice())?,
        bound,
    )
}

fn all_headings(alloc: Global, scope: &[ScopeColumn]) -> Result<Sequence<Heading>, Refused>
    ensures { GivesBy (map heading_seen) result (all_headings scope.now) }
{
    let mut headings = Sequence::new(alloc);
    for (place, column) in scope.iter().enumerate() {
        headings.push(column_heading(alloc, scope, place, column)?)?;
    }
    Ok(headings)
}

fn has_source(scope: &[ScopeColumn], source: &[u8]) -> bool
    ensures { result ≡ has_source source.now scope.now }
{
    scope.iter().any(|column| column.source.is(source))
}

fn heading_in(
    alloc: Global,
    scope: &[ScopeColumn],
    source: &[u8],
    place: usize,
    column: &ScopeColumn,
) -> Result<Sequence<Heading>, Refused>
    ensures { GivesBy (map heading_seen) result (heading_in scope.now source.now (place, column.now)) }
{
    let mut headings = Sequence::new(alloc);
    if column.source.is(source) {
        headings.push(column_heading(alloc, scope, place, column)?)?;
    }
    Ok(headings)
}

fn source_headings(
    alloc: Global,
    scope: &[ScopeColumn],
    source: &[u8],
) -> Result<Sequence<Heading>, Refused>
    ensures { GivesBy (map heading_seen) result (source_headings scope.now source.now) }
{
    let mut headings = Sequence::new(alloc);
    for (place, column) in scope.iter().enumerate() {
        let more = heading_in(alloc, scope, source, place, column)?;
        append(&mut headings, more)?;
    }
    Ok(headings)
}

fn item_headings(
    alloc: Global,
    scope: &[ScopeColumn],
    item: &SelectItem,
) -> Result<Sequence<Heading>, Refused>
    ensures { GivesBy (map heading_seen) result (item_headings scope.now item.now) }
{
    match item {
        SelectItem::AllOf(source) => {
            if !has_source(scope, source.as_slice()) {
                return Err(Refused::By(1054));
            }
            source_headings(alloc, scope, source.as_slice())
        }
        SelectItem::One(named) => {
            let mut headings = Sequence::new(alloc);
            headings.push(one_heading(alloc, scope, named)?)?;
            Ok(headings)
        }
    }
}

fn listed_headings(
    alloc: Global,
    scope: &[ScopeColumn],
    list: &[SelectItem],
) -> Result<Sequence<Heading>, Refused>
    ensures { GivesBy (map heading_seen) result (all_of (item_headings scope.now) list.now) }
{
    let mut headings = Sequence::new(alloc);
    for item in list {
        let more = item_headings(alloc, scope, item)?;
        append(&mut headings, more)?;
    }
    Ok(headings)
}

/// The columns of the answer, up to the first refusal.
pub fn headings_of(
    alloc: Global,
    scope: &[ScopeColumn],
    items: &Items,
) -> Result<Sequence<Heading>, Refused>
    ensures { GivesBy (map heading_seen) result (headings_of scope.now items.now) }
{
    match items {
        Items::All => all_headings(alloc, scope),
        Items::Listed(list) => listed_headings(alloc, scope, list.as_slice()),
    }
}
