//! Names that are too long anywhere in a statement, that stand twice, or that the system keeps.

ghost use Rattle.std.specs.Prelude.{◌≡◌};
ghost use Rattle.std.specs.List.{list_any};
ghost use Rattle.sql_rules.specs.Names.{action_long, are_long, assignment_long, clauses_long, column_long, contains, create_long, element_long, entry_long, foreign_key_long, from_long, in_given, insert_long, is_long_if, is_long_worded, is_system_name, item_long, items_long, join_long, key_long, named_long, names_long, names_long_if, query_long, repeats, select_long, source_long, update_long, write_long};

use sql_ast::{
    AlterAction, Assignment, Clauses, ColumnName, CreateTable, Element, Expr, ForeignKeyElement,
    FromClause, Insert, InsertCell, Items, Join, NamedExpr, OrderKey, Query, Select, SelectItem,
    Statement, TableSource, Tuple, Update, Write,
};
use sql_text::{Feature, has_feature, is_long_name};
use tuple_codec::{Sequence, Text};

/// Whether the program itself keeps the tables of such names.
pub fn is_kept_by_system(name: &Text) -> bool
    ensures { result ≡ is_system_name name.now }
{
    name.as_slice().starts_with(b"dolt_")
}

/// Whether a name is one of these, byte by byte; names of a tree are in lower case.
pub fn contains_name(names: &[Text], name: &Text) -> bool
    ensures { result ≡ contains names.now name.now }
{
    names.iter().any(|other| name.is(other.as_slice()))
}

/// Whether a name stands twice in a list.
pub fn repeats_name(names: &[Text]) -> bool
    ensures { result ≡ repeats names.now }
{
    for (at, name) in names.iter().enumerate() {
        if contains_name(&names[at + 1..], name) {
            return true;
        }
    }
    false
}

/// Whether a statement has a name of more bytes than a name may have.
pub fn has_long_name(statement: &Statement) -> bool
    ensures { result ≡ is_long_worded statement.now }
{
    match statement {
        Statement::Write(write) => write_has_long(write),
        Statement::Select(select) => select_has_long(select),
        Statement::Begin | Statement::Start | Statement::Commit | Statement::Rollback => false,
        Statement::Set(setting) => is_long_name(&setting.variable),
        Statement::Call(call) => is_long_name(&call.name),
    }
}

fn write_has_long(write: &Write) -> bool
    ensures { result ≡ write_long write.now }
{
    match write {
        Write::Create(create) => create_has_long(create),
        Write::Drop(drop) => is_long_name(&drop.table),
        Write::Insert(insert) => insert_has_long(insert),
        Write::Update(update) => update_has_long(update),
        Write::Delete(delete) => is_long_name(&delete.table) || filter_has_long(&delete.filter),
        Write::Alter(alter) => is_long_name(&alter.table) || action_has_long(&alter.action),
    }
}

fn action_has_long(action: &AlterAction) -> bool
    ensures { result ≡ action_long action.now }
{
    match action {
        AlterAction::Add(column) => is_long_name(&column.name),
        AlterAction::Drop(name) => is_long_name(name),
        AlterAction::Modify(column) => is_long_name(&column.name),
    }
}

fn create_has_long(create: &CreateTable) -> bool
    ensures { result ≡ create_long create.now }
{
    is_long_name(&create.table) || some_element_has_long(create.elements.as_slice())
}

fn some_element_has_long(elements: &[Element]) -> bool
    ensures { result ≡ list_any element_long elements.now }
{
    elements.iter().any(element_has_long)
}

fn element_has_long(element: &Element) -> bool
    ensures { result ≡ element_long element.now }
{
    match element {
        Element::Column(column) => is_long_name(&column.name),
        Element::PrimaryKey(columns) => some_is_long(columns.as_slice()),
        Element::Unique(name, columns) => is_long_given(name) || some_is_long(columns.as_slice()),
        Element::Index(name, columns) => is_long_name(name) || some_is_long(columns.as_slice()),
        Element::Check(name, condition) => is_long_given(name) || names_a_long(condition),
        Element::ForeignKey(key) => foreign_key_has_long(key),
    }
}

fn foreign_key_has_long(key: &ForeignKeyElement) -> bool
    ensures { result ≡ foreign_key_long key.now }
{
    is_long_given(&key.name)
        || some_is_long(key.columns.as_slice())
        || is_long_name(&key.parent)
        || some_is_long(key.parent_columns.as_slice())
}

/// Whether one of these names has more than 64 bytes, for which a statement is refused 9013.
pub fn some_is_long(names: &[Text]) -> bool
    ensures { result ≡ are_long names.now }
{
    names.iter().any(|name| is_long_name(name))
}

fn is_long_given(name: &Option<Text>) -> bool
    ensures { result ≡ is_long_if name.now }
{
    match name {
        Some(name) => is_long_name(name),
        None => false,
    }
}

fn names_a_long(expr: &Expr) -> bool
    ensures { result ≡ names_long expr.now }
{
    has_feature(expr, Feature::LongName)
}

fn filter_has_long(filter: &Option<Expr>) -> bool
    ensures { result ≡ names_long_if filter.now }
{
    match filter {
        Some(condition) => names_a_long(condition),
        None => false,
    }
}

fn insert_has_long(insert: &Insert) -> bool
    ensures { result ≡ insert_long insert.now }
{
    is_long_name(&insert.table)
        || columns_have_long(&insert.columns)
        || some_tuple_has_long(insert.tuples.as_slice())
}

fn columns_have_long(columns: &Option<Sequence<Text>>) -> bool
    ensures { result ≡ in_given are_long columns.now }
{
    match columns {
        Some(columns) => some_is_long(columns.as_slice()),
        None => false,
    }
}

fn some_tuple_has_long(tuples: &[Tuple]) -> bool
    ensures { result ≡ list_any (λ tuple. list_any entry_long tuple) tuples.now }
{
    tuples
        .iter()
        .any(|tuple| some_entry_has_long(tuple.as_slice()))
}

fn some_entry_has_long(entries: &[InsertCell]) -> bool
    ensures { result ≡ list_any entry_long entries.now }
{
    entries.iter().any(entry_has_long)
}

fn entry_has_long(entry: &InsertCell) -> bool
    ensures { result ≡ entry_long entry.now }
{
    match entry {
        InsertCell::Value(value) => names_a_long(value),
        InsertCell::Default => false,
    }
}

fn update_has_long(update: &Update) -> bool
    ensures { result ≡ update_long update.now }
{
    is_long_name(&update.table)
        || some_assignment_has_long(update.assignments.as_slice())
        || filter_has_long(&update.filter)
}

fn some_assignment_has_long(assignments: &[Assignment]) -> bool
    ensures { result ≡ list_any assignment_long assignments.now }
{
    assignments.iter().any(assignment_has_long)
}

fn assignment_has_long(assignment: &Assignment) -> bool
    ensures { result ≡ assignment_long assignment.now }
{
    is_long_name(&assignment.column) || names_a_long(&assignment.value)
}

fn select_has_long(select: &Select) -> bool
    ensures { result ≡ select_long select.now }
{
    match select {
        Select::From(query) => query_has_long(query),
        Select::Alone(list) => some_named_has_long(list.as_slice()),
    }
}

fn some_named_has_long(list: &[NamedExpr]) -> bool
    ensures { result ≡ list_any named_long list.now }
{
    list.iter().any(named_has_long)
}

fn named_has_long(named: &NamedExpr) -> bool
    ensures { result ≡ named_long named.now }
{
    names_a_long(&named.expr) || is_long_given(&named.name)
}

fn query_has_long(query: &Query) -> bool
    ensures { result ≡ query_long query.now }
{
    items_have_long(&query.items) || from_has_long(&query.from) || clauses_have_long(&query.clauses)
}

fn items_have_long(items: &Items) -> bool
    ensures { result ≡ items_long items.now }
{
    match items {
        Items::All => false,
        Items::Listed(list) => some_item_has_long(list.as_slice()),
    }
}

fn some_item_has_long(list: &[SelectItem]) -> bool
    ensures { result ≡ list_any item_long list.now }
{
    list.iter().any(item_has_long)
}

fn item_has_long(item: &SelectItem) -> bool
    ensures { result ≡ item_long item.now }
{
    match item {
        SelectItem::AllOf(source) => is_long_name(source),
        SelectItem::One(named) => named_has_long(named),
    }
}

fn from_has_long(from: &FromClause) -> bool
    ensures { result ≡ from_long from.now }
{
    source_has_long(&from.first) || some_join_has_long(from.joins.as_slice())
}

fn some_join_has_long(joins: &[Join]) -> bool
    ensures { result ≡ list_any join_long joins.now }
{
    joins.iter().any(join_has_long)
}

fn join_has_long(join: &Join) -> bool
    ensures { result ≡ join_long join.now }
{
    source_has_long(&join.source) || names_a_long(&join.on)
}

fn source_has_long(source: &TableSource) -> bool
    ensures { result ≡ source_long source.now }
{
    is_long_name(&source.table) || is_long_given(&source.alias)
}

fn clauses_have_long(clauses: &Clauses) -> bool
    ensures { result ≡ clauses_long clauses.now }
{
    filter_has_long(&clauses.filter)
        || some_column_has_long(clauses.groups.as_slice())
        || some_key_has_long(clauses.sorting.keys.as_slice())
}

fn some_column_has_long(columns: &[ColumnName]) -> bool
    ensures { result ≡ list_any column_long columns.now }
{
    columns.iter().any(column_has_long)
}

fn column_has_long(column: &ColumnName) -> bool
    ensures { result ≡ column_long column.now }
{
    match column {
        ColumnName::Name(name) => is_long_name(name),
        ColumnName::Qualified(source, name) => is_long_name(source) || is_long_name(name),
    }
}

fn some_key_has_long(keys: &[OrderKey]) -> bool
    ensures { result ≡ list_any key_long keys.now }
{
    keys.iter().any(|key| names_a_long(&key.expr))
}
