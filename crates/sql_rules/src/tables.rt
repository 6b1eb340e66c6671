//! What a table's definition keeps to: one primary key, names given once, and types in range.

ghost use Rattle.std.specs.Prelude.{◌≡◌, not, IfOk, IfSome, true};
ghost use Rattle.std.specs.List.{count_by, list_any, sum_by};
ghost use Rattle.std.specs.Option.{option_copied};
ghost use Rattle.std.specs.Str.{bytes_eq};
ghost use Rattle.tuple_codec.specs.Limits.{is_type};
ghost use Rattle.tuple_codec.specs.declared.values.SqlType.TheVariants.{Decimal, Varbinary, Varchar};
ghost use Rattle.sql_rules.specs.Names.{in_given};
ghost use Rattle.sql_rules.specs.Tables.{check_outside, column_name, element_outside, given_name, has_named, has_one_key, is_key_mark, is_typed, keys_in, misnames, ranged, repeats_given, type_of};

use crate::names::repeats_name;
use crate::writes::is_out_of_place;
use sql_ast::{Attribute, Element, Expr, TypeName};
use sql_text::is_too_deep;
use std::alloc::AllocError;
use tuple_codec::{SqlType, Text};

const MOST_CHARACTERS: u64 = 2000;

const MOST_DIGITS: u64 = 18;

/// Whether the elements have exactly one primary key.
///
/// A number of keys that no machine counts is told as want of memory, since no memory holds so many.
pub fn is_keyed_once(elements: &[Element]) -> Result<bool, AllocError>
    ensures { IfOk result (λ once. once ≡ has_one_key elements.now) }
{
    let keys = count_keys(elements)?;
    Ok(keys == 1)
}

fn count_keys(elements: &[Element]) -> Result<usize, AllocError>
    ensures { IfOk result (λ keys. keys ≡ sum_by keys_in elements.now) }
{
    let mut keys: usize = 0;
    for element in elements {
        let more = keys_of_element(element);
        keys = keys.checked_add(more).ok_or(AllocError)?;
    }
    Ok(keys)
}

fn keys_of_element(element: &Element) -> usize
    ensures { result ≡ keys_in element.now }
{
    match element {
        Element::Column(column) => count_key_marks(column.attributes.as_slice()),
        Element::PrimaryKey(_) => 1,
        _ => 0,
    }
}

fn count_key_marks(attributes: &[Attribute]) -> usize
    ensures { result ≡ count_by is_key_mark attributes.now }
{
    attributes
        .iter()
        .filter(|attribute| marks_key(attribute))
        .count()
}

/// Whether an attribute is PRIMARY KEY, of which a table has exactly one, here or as an element of its own.
pub fn marks_key(attribute: &Attribute) -> bool
    ensures { result ≡ is_key_mark attribute.now }
{
    match attribute {
        Attribute::PrimaryKey => true,
        _ => false,
    }
}

/// Whether two columns have one name.
pub fn repeats_column_name(elements: &[Element]) -> bool
    ensures { result ≡ repeats_given column_name elements.now }
{
    for (at, element) in elements.iter().enumerate() {
        if is_column_again(element, &elements[at + 1..]) {
            return true;
        }
    }
    false
}

fn is_column_again(element: &Element, later: &[Element]) -> bool
    ensures { result ≡ in_given (has_named column_name later.now) (column_name element.now) }
{
    match element {
        Element::Column(column) => has_column(later, &column.name),
        _ => false,
    }
}

/// Whether one of the elements defines a column of this name; keys and constraints that name it don't.
pub fn has_column(elements: &[Element], name: &Text) -> bool
    ensures { result ≡ has_named column_name elements.now name.now }
{
    elements
        .iter()
        .any(|element| is_column_named(element, name))
}

fn is_column_named(element: &Element, name: &Text) -> bool
    ensures { result ≡ in_given (bytes_eq name.now) (column_name element.now) }
{
    match element {
        Element::Column(column) => name.is(column.name.as_slice()),
        _ => false,
    }
}

/// Whether two constraints, of which an index is one, are given one name.
pub fn repeats_constraint_name(elements: &[Element]) -> bool
    ensures { result ≡ repeats_given given_name elements.now }
{
    for (at, element) in elements.iter().enumerate() {
        if is_constraint_again(element, &elements[at + 1..]) {
            return true;
        }
    }
    false
}

fn is_constraint_again(element: &Element, later: &[Element]) -> bool
    ensures { result ≡ in_given (has_named given_name later.now) (given_name element.now) }
{
    match name_given_to(element) {
        Some(name) => has_constraint(later, name.as_slice()),
        None => false,
    }
}

/// The name that a constraint is given, of which an index is one.
fn name_given_to(element: &Element) -> Option<&Text>
    ensures { option_copied result ≡ given_name element.now }
{
    match element {
        Element::Unique(name, _) => name.as_ref(),
        Element::Index(name, _) => Some(name),
        Element::Check(name, _) => name.as_ref(),
        Element::ForeignKey(key) => key.name.as_ref(),
        _ => None,
    }
}

/// Whether a constraint is given this name.
pub fn has_constraint(elements: &[Element], name: &[u8]) -> bool
    ensures { result ≡ has_named given_name elements.now name.now }
{
    elements
        .iter()
        .any(|element| is_constraint_named(element, name))
}

fn is_constraint_named(element: &Element, name: &[u8]) -> bool
    ensures { result ≡ in_given (bytes_eq name.now) (given_name element.now) }
{
    match name_given_to(element) {
        Some(given) => name == given.as_slice(),
        None => false,
    }
}

/// The type of this name, if its numbers are in range.
pub fn column_type(name: &TypeName) -> Option<SqlType>
    ensures of_name { result ≡ type_of name.now }
    ensures sound { IfSome result (λ type. is_type type ≡ true) }
{
    match name {
        TypeName::BigInt => Some(SqlType::BigInt),
        TypeName::Int => Some(SqlType::Int),
        TypeName::Bool => Some(SqlType::Bool),
        TypeName::Varchar(most) => if is_text_size(*most) {
            Some(SqlType::Varchar(*most as u16))
        } else {
            None
        },
        TypeName::Varbinary(most) => if is_text_size(*most) {
            Some(SqlType::Varbinary(*most as u16))
        } else {
            None
        },
        TypeName::Decimal(digits, scale) => decimal(*digits, *scale),
    }
}

fn is_text_size(size: u64) -> bool
    ensures text { result ≡ is_type (Varchar size) }
    ensures bytes { result ≡ is_type (Varbinary size) }
{
    1 <= size && size <= MOST_CHARACTERS
}

fn decimal(digits: u64, scale: u64) -> Option<SqlType>
    ensures of_numbers { result ≡ ranged (Decimal digits scale) }
    ensures sound { IfSome result (λ type. is_type type ≡ true) }
{
    if 1 <= digits && digits <= MOST_DIGITS && scale <= digits {
        Some(SqlType::Decimal(digits as u8, scale as u8))
    } else {
        None
    }
}

fn has_type(name: &TypeName) -> bool
    ensures { result ≡ is_typed (type_of name.now) }
{
    match column_type(name) {
        Some(_) => true,
        None => false,
    }
}

/// Whether a list of columns has one that isn't there, or one twice.
fn is_misnamed(elements: &[Element], columns: &[Text]) -> bool
    ensures { result ≡ misnames elements.now columns.now }
{
    repeats_name(columns) || misses_column(elements, columns)
}

fn misses_column(elements: &[Element], columns: &[Text]) -> bool
    ensures { result ≡ list_any (λ column. not (has_named column_name elements.now column)) columns.now }
{
    columns.iter().any(|column| !has_column(elements, column))
}

fn is_outside_check(condition: &Expr) -> bool
    ensures { result ≡ check_outside condition.now }
{
    is_out_of_place(condition) || is_too_deep(condition)
}

/// Whether an element has CREATE refused 9013: a type's number out of range, a column that isn't there or stands twice in a list,
/// or a CHECK with an aggregate, a word of the session or too many parentheses.
pub fn some_element_is_outside(elements: &[Element]) -> bool
    ensures { result ≡ list_any (element_outside elements.now) elements.now }
{
    elements
        .iter()
        .any(|element| is_outside_element(elements, element))
}

fn is_outside_element(elements: &[Element], element: &Element) -> bool
    ensures { result ≡ element_outside elements.now element.now }
{
    match element {
        Element::Column(column) => !has_type(&column.kind),
        Element::PrimaryKey(columns) => is_misnamed(elements, columns.as_slice()),
        Element::Unique(_, columns) => is_misnamed(elements, columns.as_slice()),
        Element::Index(_, columns) => is_misnamed(elements, columns.as_slice()),
        Element::Check(_, condition) => is_outside_check(condition),
        Element::ForeignKey(key) => is_misnamed(elements, key.columns.as_slice()),
    }
}
