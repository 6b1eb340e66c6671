//! Whether two schemas are the same, part by part.

ghost use Rattle.std.specs.Prelude.{◌≡◌, bytes_eq};
ghost use Rattle.std.specs.Cmp.Lexicographic.{pointwise};
ghost use Rattle.std.specs.Option.{option_copied};
ghost use Rattle.tuple_codec.specs.Rows.{same_value};
ghost use Rattle.schema_model.specs.Sameness.{is_same_check, is_same_column, is_same_foreign, is_same_index, is_same_kind, is_same_option, is_same_schema, is_same_truth};

use crate::schemas::{CheckDef, Column, ForeignKey, IndexDef, Schema};
use tuple_codec::{SqlType, Text, Value, same_value};

fn is_same_kind(a: &SqlType, b: &SqlType) -> bool
    ensures { result ≡ is_same_kind a.now b.now }
{
    match (a, b) {
        (SqlType::BigInt, SqlType::BigInt) => true,
        (SqlType::Int, SqlType::Int) => true,
        (SqlType::Bool, SqlType::Bool) => true,
        (SqlType::Varchar(a), SqlType::Varchar(b)) => a == b,
        (SqlType::Varbinary(a), SqlType::Varbinary(b)) => a == b,
        (SqlType::Decimal(a, c), SqlType::Decimal(b, d)) => a == b && c == d,
        _ => false,
    }
}

fn is_same_truth(a: bool, b: bool) -> bool
    ensures { result ≡ is_same_truth a b }
{
    if a { b } else { !b }
}

fn is_same_default(a: Option<&Value>, b: Option<&Value>) -> bool
    ensures { result ≡ is_same_option same_value (option_copied a.entry) (option_copied b.entry) }
{
    match (a, b) {
        (None, None) => true,
        (Some(a), Some(b)) => same_value(a, b),
        _ => false,
    }
}

fn is_same_column(a: &Column, b: &Column) -> bool
    ensures { result ≡ is_same_column a.now b.now }
{
    a.name.is(b.name.as_slice())
        && is_same_kind(&a.kind, &b.kind)
        && is_same_truth(a.not_null, b.not_null)
        && is_same_default(a.default.as_ref(), b.default.as_ref())
}

fn are_same_columns(a: &[Column], b: &[Column]) -> bool
    ensures { result ≡ pointwise is_same_column a.now b.now }
{
    match (a, b) {
        ([], []) => true,
        ([x, xs @ ..], [y, ys @ ..]) => is_same_column(x, y) && are_same_columns(xs, ys),
        _ => false,
    }
}

fn is_same_index(a: &IndexDef, b: &IndexDef) -> bool
    ensures { result ≡ is_same_index a.now b.now }
{
    a.name.is(b.name.as_slice())
        && is_same_truth(a.unique, b.unique)
        && a.columns.as_slice() == b.columns.as_slice()
}

fn are_same_indexes(a: &[IndexDef], b: &[IndexDef]) -> bool
    ensures { result ≡ pointwise is_same_index a.now b.now }
{
    match (a, b) {
        ([], []) => true,
        ([x, xs @ ..], [y, ys @ ..]) => is_same_index(x, y) && are_same_indexes(xs, ys),
        _ => false,
    }
}

fn is_same_check(a: &CheckDef, b: &CheckDef) -> bool
    ensures { result ≡ is_same_check a.now b.now }
{
    a.name.is(b.name.as_slice()) && a.text.is(b.text.as_slice())
}

fn are_same_checks(a: &[CheckDef], b: &[CheckDef]) -> bool
    ensures { result ≡ pointwise is_same_check a.now b.now }
{
    match (a, b) {
        ([], []) => true,
        ([x, xs @ ..], [y, ys @ ..]) => is_same_check(x, y) && are_same_checks(xs, ys),
        _ => false,
    }
}

fn are_same_texts(a: &[Text], b: &[Text]) -> bool
    ensures { result ≡ pointwise bytes_eq a.now b.now }
{
    match (a, b) {
        ([], []) => true,
        ([x, xs @ ..], [y, ys @ ..]) => x.is(y.as_slice()) && are_same_texts(xs, ys),
        _ => false,
    }
}

fn is_same_foreign(a: &ForeignKey, b: &ForeignKey) -> bool
    ensures { result ≡ is_same_foreign a.now b.now }
{
    a.name.is(b.name.as_slice())
        && a.columns.as_slice() == b.columns.as_slice()
        && a.parent.is(b.parent.as_slice())
        && are_same_texts(a.parent_columns.as_slice(), b.parent_columns.as_slice())
}

fn are_same_foreign(a: &[ForeignKey], b: &[ForeignKey]) -> bool
    ensures { result ≡ pointwise is_same_foreign a.now b.now }
{
    match (a, b) {
        ([], []) => true,
        ([x, xs @ ..], [y, ys @ ..]) => is_same_foreign(x, y) && are_same_foreign(xs, ys),
        _ => false,
    }
}

/// Whether two schemas are the same: each column, the key, each index, CHECK and foreign key, names and order too.
pub fn is_same_schema(a: &Schema, b: &Schema) -> bool
    ensures { result ≡ is_same_schema a.now b.now }
{
    are_same_columns(a.columns.as_slice(), b.columns.as_slice())
        && a.key.as_slice() == b.key.as_slice()
        && are_same_indexes(a.indexes.as_slice(), b.indexes.as_slice())
        && are_same_checks(a.checks.as_slice(), b.checks.as_slice())
        && are_same_foreign(a.foreign.as_slice(), b.foreign.as_slice())
}
