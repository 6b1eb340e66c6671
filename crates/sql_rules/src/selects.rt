//! SELECTs outside the language.

ghost use Rattle.std.specs.Prelude.{◌≡◌};
ghost use Rattle.std.specs.List.{list_all, list_any};
ghost use Rattle.std.specs.Str.{bytes_eq};
ghost use Rattle.sql_ast.specs.declared.expressions.Expr.{out-Expr};
ghost use Rattle.sql_ast.specs.declared.selects.ColumnName.TheVariants.{Name, Qualified};
ghost use Rattle.sql_text.specs.Features.{has};
ghost use Rattle.sql_rules.specs.Names.{repeats_by};
ghost use Rattle.sql_text.specs.Nesting.{nests};
ghost use Rattle.sql_rules.specs.Selects as spec;
ghost use Rattle.sql_rules.specs.Selects.{alone_outside, are_of_groups, from_outside, in_item, in_items, is_filled, is_grouped, is_of_groups, is_open_to_sources, is_ungrouped_item_shown, is_written_as, items_outside, joined_name, key_outside, keys_outside, mixes_aggregates, query_outside, repeats_source, select_outside};
ghost use Rattle.sql_text.specs.SelectNames.{is_call};
ghost use Rattle.sql_rules.specs.Writes.{is_misplaced};

use crate::writes::{is_given_out_of_place, is_out_of_place};
use sql_ast::{
    ColumnName, Expr, FromClause, Items, Join, NamedExpr, OrderKey, Query, Select, SelectItem,
};
use sql_text::{
    Feature, Key, has_feature, is_aggregate_node, item_list, nests_aggregates, order_key,
    source_name,
};
use tuple_codec::Text;

/// Whether a SELECT is refused 9013 for its sources, conditions, items, grouping or order keys; the lengths of its names are judged apart.
pub fn is_outside_select(select: &Select) -> bool
    ensures { result ≡ select_outside select.now }
{
    match select {
        Select::From(query) => is_outside_query(query),
        Select::Alone(list) => is_outside_alone(list.as_slice()),
    }
}

fn is_outside_query(query: &Query) -> bool
    ensures { result ≡ query_outside query.now }
{
    is_outside_from(&query.from)
        || is_given_out_of_place(&query.clauses.filter)
        || are_outside_items(&query.items)
        || shows_ungrouped_item(query)
        || has_outside_key(query)
}

fn is_outside_from(from: &FromClause) -> bool
    ensures { result ≡ from_outside from.now }
{
    has_repeated_source(from) || some_condition_is_out_of_place(from.joins.as_slice())
}

fn some_condition_is_out_of_place(joins: &[Join]) -> bool
    ensures { result ≡ list_any (λ join. is_misplaced join.on) joins.now }
{
    joins.iter().any(|join| is_out_of_place(&join.on))
}

/// Whether two sources have one name.
fn has_repeated_source(from: &FromClause) -> bool
    ensures { result ≡ repeats_source from.now }
{
    let joins = from.joins.as_slice();
    joins_named(joins, source_name(&from.first)) || repeats_joined(joins)
}

fn repeats_joined(joins: &[Join]) -> bool
    ensures { result ≡ repeats_by joined_name joins.now }
{
    for (at, join) in joins.iter().enumerate() {
        if joins_named(&joins[at + 1..], source_name(&join.source)) {
            return true;
        }
    }
    false
}

fn joins_named(joins: &[Join], name: &Text) -> bool
    ensures { result ≡ list_any (λ join. bytes_eq name.now (joined_name join)) joins.now }
{
    joins
        .iter()
        .any(|join| name.is(source_name(&join.source).as_slice()))
}

fn are_outside_items(items: &Items) -> bool
    ensures { result ≡ items_outside items.now }
{
    some_item_has(items, Feature::SessionWord) || some_item_nests(items)
}

fn some_item_has(items: &Items, feature: Feature) -> bool
    ensures { result ≡ in_items (has feature) items.now }
{
    match items {
        Items::All => false,
        Items::Listed(list) => some_listed_has(list.as_slice(), feature),
    }
}

fn some_listed_has(list: &[SelectItem], feature: Feature) -> bool
    ensures { result ≡ list_any (in_item (has feature)) list.now }
{
    list.iter().any(|item| item_has(item, feature))
}

fn item_has(item: &SelectItem, feature: Feature) -> bool
    ensures { result ≡ in_item (has feature) item.now }
{
    match item {
        SelectItem::AllOf(_) => false,
        SelectItem::One(named) => has_feature(&named.expr, feature),
    }
}

fn some_item_nests(items: &Items) -> bool
    ensures { result ≡ in_items nests items.now }
{
    match items {
        Items::All => false,
        Items::Listed(list) => some_listed_nests(list.as_slice()),
    }
}

fn some_listed_nests(list: &[SelectItem]) -> bool
    ensures { result ≡ list_any (in_item nests) list.now }
{
    list.iter().any(item_nests)
}

fn item_nests(item: &SelectItem) -> bool
    ensures { result ≡ in_item nests item.now }
{
    match item {
        SelectItem::AllOf(_) => false,
        SelectItem::One(named) => nests_aggregates(&named.expr),
    }
}

/// Whether a SELECT has GROUP BY, or an aggregate in an item.
fn is_grouped_query(query: &Query) -> bool
    ensures { result ≡ is_grouped query.now }
{
    has_some(query.clauses.groups.as_slice()) || some_item_has(&query.items, Feature::Aggregate)
}

fn has_some(groups: &[ColumnName]) -> bool
    ensures { result ≡ is_filled groups.now }
{
    match groups {
        [] => false,
        [_, ..] => true,
    }
}

/// Whether a grouped SELECT shows anything but its groups' columns and calls of aggregates.
fn shows_ungrouped_item(query: &Query) -> bool
    ensures { result ≡ is_ungrouped_item_shown query.now }
{
    is_grouped_query(query) && !are_items_of_groups(&query.items, query.clauses.groups.as_slice())
}

fn are_items_of_groups(items: &Items, groups: &[ColumnName]) -> bool
    ensures { result ≡ are_of_groups groups.now items.now }
{
    match items {
        Items::All => false,
        Items::Listed(list) => all_are_of_groups(list.as_slice(), groups),
    }
}

fn all_are_of_groups(list: &[SelectItem], groups: &[ColumnName]) -> bool
    ensures { result ≡ list_all (is_of_groups groups.now) list.now }
{
    list.iter().all(|item| is_item_of_groups(item, groups))
}

fn is_item_of_groups(item: &SelectItem, groups: &[ColumnName]) -> bool
    ensures { result ≡ is_of_groups groups.now item.now }
{
    match item {
        SelectItem::AllOf(_) => false,
        SelectItem::One(named) => {
            is_aggregate_node(&named.expr) || is_column_of_groups(&named.expr, groups)
        }
    }
}

fn is_column_of_groups(expr: &Expr, groups: &[ColumnName]) -> bool
    ensures { result ≡ list_any (is_written_as (out-Expr expr.now)) groups.now }
{
    groups.iter().any(|column| is_column(expr, column))
}

/// Whether an expression is a column, written alike.
fn is_column(expr: &Expr, column: &ColumnName) -> bool
    ensures { result ≡ is_written_as (out-Expr expr.now) column.now }
{
    match column {
        ColumnName::Name(name) => is_plain_column(expr, name),
        ColumnName::Qualified(source, name) => is_qualified_column(expr, source, name),
    }
}

fn is_plain_column(expr: &Expr, wanted: &Text) -> bool
    ensures { result ≡ is_written_as (out-Expr expr.now) (Name wanted.now) }
{
    match expr {
        Expr::Name(name) => name.is(wanted.as_slice()),
        _ => false,
    }
}

fn is_qualified_column(expr: &Expr, wanted_source: &Text, wanted: &Text) -> bool
    ensures { result ≡ is_written_as (out-Expr expr.now) (Qualified wanted_source.now wanted.now) }
{
    match expr {
        Expr::Qualified(source, name) => {
            source.is(wanted_source.as_slice()) && name.is(wanted.as_slice())
        }
        _ => false,
    }
}

fn has_outside_key(query: &Query) -> bool
    ensures { result ≡ keys_outside query.now }
{
    let keys = query.clauses.sorting.keys.as_slice();
    some_key_is_outside(item_list(&query.items), orders_combinations(query), keys)
}

/// Whether the rows that a SELECT orders stand for one combination of its sources' rows each.
fn orders_combinations(query: &Query) -> bool
    ensures { result ≡ is_open_to_sources query.now }
{
    !(is_grouped_query(query) || query.distinct)
}

fn some_key_is_outside(items: &[SelectItem], open_to_sources: bool, keys: &[OrderKey]) -> bool
    ensures { result ≡ list_any (key_outside items.now open_to_sources) keys.now }
{
    keys.iter()
        .any(|key| is_outside_key(items, open_to_sources, key))
}

/// Whether a key of ORDER BY is none; `open_to_sources` says whether one may be an expression over the sources.
fn is_outside_key(items: &[SelectItem], open_to_sources: bool, key: &OrderKey) -> bool
    ensures { result ≡ key_outside items.now open_to_sources key.now }
{
    is_out_of_place(&key.expr) || !may_order(open_to_sources, order_key(items, &key.expr))
}

fn may_order(open_to_sources: bool, key: Option<Key>) -> bool
    ensures { result ≡ spec.may_order open_to_sources key }
{
    match key {
        Some(Key::AtItem(_)) => true,
        Some(Key::OverSources) => open_to_sources,
        None => false,
    }
}

fn is_outside_alone(list: &[NamedExpr]) -> bool
    ensures { result ≡ alone_outside list.now }
{
    some_named_has(list, Feature::OtherVariable)
        || some_named_nests(list)
        || has_mixed_aggregates(list)
}

fn some_named_has(list: &[NamedExpr], feature: Feature) -> bool
    ensures { result ≡ list_any (λ named. has feature named.expr) list.now }
{
    list.iter().any(|named| has_feature(&named.expr, feature))
}

fn some_named_nests(list: &[NamedExpr]) -> bool
    ensures { result ≡ list_any (λ named. nests named.expr) list.now }
{
    list.iter().any(|named| nests_aggregates(&named.expr))
}

/// Whether some of the expressions have aggregates, and not all are calls of one.
fn has_mixed_aggregates(list: &[NamedExpr]) -> bool
    ensures { result ≡ mixes_aggregates list.now }
{
    some_named_has(list, Feature::Aggregate) && !all_are_calls(list)
}

fn all_are_calls(list: &[NamedExpr]) -> bool
    ensures { result ≡ list_all (λ named. is_call named.expr) list.now }
{
    list.iter().all(|named| is_aggregate_node(&named.expr))
}
