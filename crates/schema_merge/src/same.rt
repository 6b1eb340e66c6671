//! Whether parts have the same definition.

ghost use Rattle.std.specs.Prelude.{◌≡◌, bytes_eq};
ghost use Rattle.std.specs.Cmp.Lexicographic.{pointwise};
ghost use Rattle.std.specs.Option.{option_copied};
ghost use Rattle.tuple_codec.specs.Rows.{same_value};
ghost use Rattle.schema_model.specs.Sameness.{is_same_column, is_same_kind, is_same_option, is_same_truth};
ghost use Rattle.schema_merge.specs.Parts.{covers, names_at};

use crate::finding::name_at;
use schema_model::Column;
use tuple_codec::{SqlType, Text, Value, same_value};

fn same_kind(a: &SqlType, b: &SqlType) -> bool
    ensures { result ≡ is_same_kind a.now b.now }
{
    match (a, b) {
        (SqlType::BigInt, SqlType::BigInt) => true,
        (SqlType::Int, SqlType::Int) => true,
        (SqlType::Bool, SqlType::Bool) => true,
        (SqlType::Varchar(a), SqlType::Varchar(b)) => a == b,
        (SqlType::Varbinary(a), SqlType::Varbinary(b)) => a == b,
        (SqlType::Decimal(a, c), SqlType::Decimal(b, d)) => a == b && c == d,
        _ => false,
    }
}

/// Whether the first type is equal to the second or wider.
pub(crate) fn covers(a: &SqlType, b: &SqlType) -> bool
    ensures { result ≡ covers a.now b.now }
{
    match (a, b) {
        (SqlType::BigInt, SqlType::Int) => true,
        (SqlType::Varchar(a), SqlType::Varchar(b)) => b <= a,
        (SqlType::Varbinary(a), SqlType::Varbinary(b)) => b <= a,
        (SqlType::Decimal(a, c), SqlType::Decimal(b, d)) => c == d && b <= a,
        _ => same_kind(a, b),
    }
}

pub(crate) fn same_truth(a: bool, b: bool) -> bool
    ensures { result ≡ is_same_truth a b }
{
    if a { b } else { !b }
}

fn same_default(a: Option<&Value>, b: Option<&Value>) -> bool
    ensures { result ≡ is_same_option same_value (option_copied a.entry) (option_copied b.entry) }
{
    match (a, b) {
        (None, None) => true,
        (Some(a), Some(b)) => same_value(a, b),
        _ => false,
    }
}

pub(crate) fn same_column(a: &Column, b: &Column) -> bool
    ensures { result ≡ is_same_column a.now b.now }
{
    a.name.is(b.name.as_slice())
        && same_kind(&a.kind, &b.kind)
        && same_truth(a.not_null, b.not_null)
        && same_default(a.default.as_ref(), b.default.as_ref())
}

/// Whether the columns at positions of one schema have the names of those at positions of another.
pub(crate) fn same_names(
    columns: &[Column],
    places: &[u8],
    others: &[Column],
    other_places: &[u8],
) -> bool
    ensures { result ≡ pointwise bytes_eq (names_at columns.now places.now) (names_at others.now other_places.now) }
{
    match (places, other_places) {
        ([], []) => true,
        ([place, places @ ..], [other, other_places @ ..]) => {
            name_at(columns, *place) == name_at(others, *other)
                && same_names(columns, places, others, other_places)
        }
        _ => false,
    }
}

pub(crate) fn same_texts(a: &[Text], b: &[Text]) -> bool
    ensures { result ≡ pointwise bytes_eq a.now b.now }
{
    match (a, b) {
        ([], []) => true,
        ([x, xs @ ..], [y, ys @ ..]) => x.is(y.as_slice()) && same_texts(xs, ys),
        _ => false,
    }
}
