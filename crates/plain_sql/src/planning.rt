//! A SELECT whose names and kinds are found.

ghost use Rattle.std.specs.Prelude.{◌≡◌, [], map};
ghost use Rattle.std.specs.List.{list_any};
ghost use Rattle.sql_text.specs.SelectNames.{is_call};
ghost use Rattle.plain_sql.specs.Gives.{Gives, GivesBy};
ghost use Rattle.plain_sql.specs.Lists.{each};
ghost use Rattle.plain_sql.specs.Plans.{calls_aggregate, condition, conditions, group_place, grouping_of, is_none, meaning, one_heading, place_meant, planned, planned_alone};
ghost use Rattle.plain_sql.specs.Seen.{heading_seen, plan_seen};

use crate::binding::condition;
use crate::faults::Refused;
use crate::grouping::Grouping;
use crate::items::{Heading, headings_of, one_heading};
use crate::keys::sort_keys;
use crate::ranking::Sorter;
use expr_eval::{BoundExpr, ScopeColumn, place_named, place_qualified};
use sql_ast::{ColumnName, Limit, NamedExpr, Query, SelectItem};
use sql_text::{is_aggregate_node, item_list};
use std::alloc::Global;
use tuple_codec::Sequence;

/// A SELECT whose names and kinds are found.
#[derive(Drop)]
pub struct Plan {
    /// Each ON from left to right, then WHERE.
    pub tests: Sequence<BoundExpr>,
    pub grouping: Grouping,
    pub headings: Sequence<Heading>,
    pub distinct: bool,
    pub keys: Sequence<Sorter>,
    pub limit: Option<Limit>,
}

fn tests(
    alloc: Global,
    scope: &[ScopeColumn],
    query: &Query,
) -> Result<Sequence<BoundExpr>, Refused>
    ensures { GivesBy (map meaning) result (each (condition scope.now) (conditions query.now)) }
{
    let mut tests = Sequence::new(alloc);
    let joins = query.from.joins.as_slice();
    for join in joins {
        tests.push(condition(alloc, scope, &join.on)?)?;
    }
    if let Some(filter) = &query.clauses.filter {
        tests.push(condition(alloc, scope, filter)?)?;
    }
    Ok(tests)
}

fn found(scope: &[ScopeColumn], column: &ColumnName) -> Option<usize>
    ensures { result ≡ place_meant scope.now column.now }
{
    match column {
        ColumnName::Name(name) => place_named(scope, name.as_slice()),
        ColumnName::Qualified(source, name) => {
            place_qualified(scope, source.as_slice(), name.as_slice())
        }
    }
}

fn group_place(scope: &[ScopeColumn], column: &ColumnName) -> Result<usize, Refused>
    ensures { Gives result (group_place scope.now column.now) }
{
    match found(scope, column) {
        Some(place) => Ok(place),
        None => Err(Refused::By(1054)),
    }
}

fn group_places(
    alloc: Global,
    scope: &[ScopeColumn],
    columns: &[ColumnName],
) -> Result<Sequence<usize>, Refused>
    ensures { Gives result (each (group_place scope.now) columns.now) }
{
    let mut places = Sequence::new(alloc);
    for column in columns {
        places.push(group_place(scope, column)?)?;
    }
    Ok(places)
}

fn calls_aggregate(item: &SelectItem) -> bool
    ensures { result ≡ calls_aggregate item.now }
{
    match item {
        SelectItem::AllOf(_) => false,
        SelectItem::One(named) => is_aggregate_node(&named.expr),
    }
}

fn some_calls_aggregate(list: &[SelectItem]) -> bool
    ensures { result ≡ list_any calls_aggregate list.now }
{
    list.iter().any(calls_aggregate)
}

fn is_empty(places: &[usize]) -> bool
    ensures { result ≡ is_none places.now }
{
    match places {
        [] => true,
        [_, ..] => false,
    }
}

/// By GROUP BY's columns; without it an aggregate makes all rows one group.
pub fn grouping_of(aggregates: bool, places: Sequence<usize>) -> Grouping
    ensures { result ≡ grouping_of aggregates places }
{
    if !is_empty(places.as_slice()) {
        Grouping::By(places)
    } else if aggregates {
        Grouping::Whole
    } else {
        Grouping::Single
    }
}

/// Items, each ON, WHERE, GROUP BY and the order keys, in this order, up to the first refusal.
pub fn planned(alloc: Global, scope: &[ScopeColumn], query: &Query) -> Result<Plan, Refused>
    ensures { GivesBy plan_seen result (planned scope.now query.now) }
{
    let list = item_list(&query.items);
    let headings = headings_of(alloc, scope, &query.items)?;
    let tests = tests(alloc, scope, query)?;
    let places = group_places(alloc, scope, query.clauses.groups.as_slice())?;
    let keys = sort_keys(alloc, scope, list, query.clauses.sorting.keys.as_slice())?;
    Ok(Plan {
        tests,
        grouping: grouping_of(some_calls_aggregate(list), places),
        headings,
        distinct: query.distinct,
        keys,
        limit: query.clauses.sorting.limit,
    })
}

fn some_is_call(list: &[NamedExpr]) -> bool
    ensures { result ≡ list_any (λ named. is_call named.expr) list.now }
{
    list.iter().any(|named| is_aggregate_node(&named.expr))
}

fn alone_headings(alloc: Global, list: &[NamedExpr]) -> Result<Sequence<Heading>, Refused>
    ensures { GivesBy (map heading_seen) result (each (one_heading []) list.now) }
{
    let mut headings = Sequence::new(alloc);
    for named in list {
        headings.push(one_heading(alloc, &[], named)?)?;
    }
    Ok(headings)
}

/// A SELECT without FROM.
pub fn planned_alone(alloc: Global, list: &[NamedExpr]) -> Result<Plan, Refused>
    ensures { GivesBy plan_seen result (planned_alone list.now) }
{
    let headings = alone_headings(alloc, list)?;
    Ok(Plan {
        tests: Sequence::new(alloc),
        grouping: grouping_of(some_is_call(list), Sequence::new(alloc)),
        headings,
        distinct: false,
        keys: Sequence::new(alloc),
        limit: None,
    })
}
