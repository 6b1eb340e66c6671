//! What a column's definition comes to, and whether the column keeps its default.

ghost use Rattle.std.specs.Prelude.{◌≡◌, IfOk, None, true, false};
ghost use Rattle.std.specs.List.{list_any};
ghost use Rattle.tuple_codec.specs.Limits.{is_type};
ghost use Rattle.sql_rules.specs.Defaults as spec;
ghost use Rattle.sql_rules.specs.Defaults.{default_after, default_of, defaults_outside, definition_of, fraction, has_outside_default, is_not_null, kept, kept_of, negative_default, negative_fraction, negative_whole, plain_default, positive_fraction, refuses_null_after, typed, whole};
ghost use Rattle.sql_rules.specs.Tables.{is_key_mark, keys_column, type_of};

use crate::names::contains_name;
use crate::tables::{column_type, marks_key};
use sql_ast::{Attribute, ColumnElement, Element, Literal};
use sql_values::{Kind, Misfit, assign};
use std::alloc::{AllocError, Global};
use tuple_codec::{Sequence, SqlType, Text, Value};

const MOST_WHOLE: u64 = (1 << 63) - 1;

/// What a default's literal gives.
#[derive(Drop)]
pub struct DefaultValue {
    pub kind: Kind,
    pub value: Value,
}

/// What a column's definition comes to.
#[derive(Drop)]
pub struct Definition {
    pub kind: SqlType,
    /// A column of the primary key is NOT NULL whatever it says.
    pub not_null: bool,
    /// As the column keeps it; a default of NULL isn't the same as none.
    pub default: Option<Value>,
}

/// Whether a column of these has a default that can't be assigned to it.
pub fn some_default_is_outside(alloc: Global, elements: &[Element]) -> Result<bool, AllocError>
    ensures { IfOk result (λ outside. outside ≡ list_any (has_outside_default elements.now) elements.now) }
{
    for element in elements {
        if element_has_outside_default(alloc, elements, element)? {
            return Ok(true);
        }
    }
    Ok(false)
}

fn element_has_outside_default(
    alloc: Global,
    elements: &[Element],
    element: &Element,
) -> Result<bool, AllocError>
    ensures { IfOk result (λ outside. outside ≡ has_outside_default elements.now element.now) }
{
    match element {
        Element::Column(column) => column_has_outside_default(alloc, elements, column),
        _ => Ok(false),
    }
}

fn column_has_outside_default(
    alloc: Global,
    elements: &[Element],
    column: &ColumnElement,
) -> Result<bool, AllocError>
    ensures { IfOk result (λ outside. outside ≡ defaults_outside (type_of column.now.kind) (is_not_null elements.now column.now) column.now.attributes) }
{
    match column_type(&column.kind) {
        Some(kind) => {
            let not_null = takes_no_null(elements, column);
            let default = last_default(alloc, &kind, not_null, column.attributes.as_slice())?;
            Ok(default.is_none())
        }
        None => Ok(false),
    }
}

fn takes_no_null(elements: &[Element], column: &ColumnElement) -> bool
    ensures { result ≡ is_not_null elements.now column.now }
{
    is_key_column(elements, &column.name) || refuses_null(column.attributes.as_slice())
}

fn is_key_column(elements: &[Element], name: &Text) -> bool
    ensures { result ≡ list_any (keys_column name.now) elements.now }
{
    elements
        .iter()
        .any(|element| names_key_column(element, name))
}

fn names_key_column(element: &Element, name: &Text) -> bool
    ensures { result ≡ keys_column name.now element.now }
{
    match element {
        Element::Column(column) => {
            name.is(column.name.as_slice()) && some_marks_key(column.attributes.as_slice())
        }
        Element::PrimaryKey(columns) => contains_name(columns.as_slice(), name),
        _ => false,
    }
}

fn some_marks_key(attributes: &[Attribute]) -> bool
    ensures { result ≡ list_any is_key_mark attributes.now }
{
    attributes.iter().any(marks_key)
}

/// Whether the last NOT NULL or NULL is NOT NULL.
fn refuses_null(attributes: &[Attribute]) -> bool
    ensures { result ≡ refuses_null_after false attributes.now }
{
    let mut refuses = false;
    for attribute in attributes {
        match attribute {
            Attribute::NotNull => refuses = true,
            Attribute::Null => refuses = false,
            Attribute::Default(_, _) | Attribute::PrimaryKey | Attribute::Unique => {}
        }
    }
    refuses
}

/// The default that a column's attributes say, if any, as the column keeps it; nothing where it doesn't keep one of them.
fn last_default(
    alloc: Global,
    kind: &SqlType,
    not_null: bool,
    attributes: &[Attribute],
) -> Result<Option<Option<Value>>, AllocError>
    requires { is_type kind.now ≡ true }
    ensures { IfOk result (λ default. default ≡ default_after kind.now not_null None attributes.now) }
{
    let mut last = None;
    for attribute in attributes {
        match attribute {
            Attribute::Default(minus, literal) => {
                match kept_default(alloc, kind, not_null, *minus, literal)? {
                    Some(value) => last = Some(value),
                    None => return Ok(None),
                }
            }
            Attribute::NotNull | Attribute::Null | Attribute::PrimaryKey | Attribute::Unique => {}
        }
    }
    Ok(Some(last))
}

fn kept_default(
    alloc: Global,
    kind: &SqlType,
    not_null: bool,
    minus: bool,
    literal: &Literal,
) -> Result<Option<Value>, AllocError>
    requires { is_type kind.now ≡ true }
    ensures { IfOk result (λ value. value ≡ kept_of kind.now not_null (default_of minus literal.now)) }
{
    match default_given(alloc, minus, literal)? {
        Some(DefaultValue { kind: own, value }) => Ok(value_kept(assign(
            &own, kind, not_null, value,
        ))),
        None => Ok(None),
    }
}

fn value_kept(assigned: Result<Value, Misfit>) -> Option<Value>
    ensures { result ≡ kept assigned }
{
    assigned.ok()
}

/// What the definition of a column that CREATE makes, among these elements, comes to; nothing where its type, or a
/// default of it, is outside the language.
pub fn created_column(
    alloc: Global,
    elements: &[Element],
    column: &ColumnElement,
) -> Result<Option<Definition>, AllocError>
    ensures { IfOk result (λ made. made ≡ spec.created_column elements.now column.now) }
{
    define(alloc, takes_no_null(elements, column), column)
}

/// The same of a column that ALTER adds or modifies.
pub fn altered_column(
    alloc: Global,
    column: &ColumnElement,
) -> Result<Option<Definition>, AllocError>
    ensures { IfOk result (λ made. made ≡ spec.altered_column column.now) }
{
    define(alloc, refuses_null(column.attributes.as_slice()), column)
}

fn define(
    alloc: Global,
    not_null: bool,
    column: &ColumnElement,
) -> Result<Option<Definition>, AllocError>
    ensures { IfOk result (λ made. made ≡ definition_of not_null column.now) }
{
    match column_type(&column.kind) {
        Some(kind) => define_typed(alloc, not_null, column.attributes.as_slice(), kind),
        None => Ok(None),
    }
}

fn define_typed(
    alloc: Global,
    not_null: bool,
    attributes: &[Attribute],
    kind: SqlType,
) -> Result<Option<Definition>, AllocError>
    requires { is_type kind ≡ true }
    ensures { IfOk result (λ made. made ≡ typed not_null attributes.now kind) }
{
    match last_default(alloc, &kind, not_null, attributes)? {
        Some(default) => Ok(Some(Definition {
            kind,
            not_null,
            default,
        })),
        None => Ok(None),
    }
}

/// What a default gives; nothing where a minus stands before anything but a number.
fn default_given(
    alloc: Global,
    minus: bool,
    literal: &Literal,
) -> Result<Option<DefaultValue>, AllocError>
    ensures { IfOk result (λ given. given ≡ default_of minus literal.now) }
{
    if minus {
        Ok(negative_given(literal))
    } else {
        plain_given(alloc, literal)
    }
}

fn negative_given(literal: &Literal) -> Option<DefaultValue>
    ensures { result ≡ negative_default literal.now }
{
    match literal {
        Literal::Whole(number) => negative_number(*number),
        Literal::Decimal(number, scale) => negative_decimal(*number, *scale),
        _ => None,
    }
}

fn plain_given(alloc: Global, literal: &Literal) -> Result<Option<DefaultValue>, AllocError>
    ensures { IfOk result (λ given. given ≡ plain_default literal.now) }
{
    match literal {
        Literal::Whole(number) => Ok(number_given(*number)),
        Literal::Decimal(number, scale) => Ok(decimal_given(*number, *scale)),
        Literal::Text(text) => {
            let copy = Text::from_slice(alloc, text.as_slice())?;
            Ok(Some(DefaultValue {
                kind: Kind::Text,
                value: Value::Text(copy),
            }))
        }
        Literal::Bytes(bytes) => {
            let copy = Vec::from_slice(alloc, bytes.as_slice())?;
            Ok(Some(DefaultValue {
                kind: Kind::Bytes,
                value: Value::Bytes(Sequence::from_vec(copy)),
            }))
        }
        Literal::Bool(bit) => Ok(Some(DefaultValue {
            kind: Kind::Bool,
            value: Value::Bool(*bit),
        })),
        Literal::Null => Ok(Some(DefaultValue {
            kind: Kind::Null,
            value: Value::Null,
        })),
    }
}

fn number_given(number: u64) -> Option<DefaultValue>
    ensures { result ≡ whole number }
{
    if number > MOST_WHOLE {
        return None;
    }
    Some(DefaultValue {
        kind: Kind::Int,
        value: Value::Int(number as i64),
    })
}

fn negative_number(number: u64) -> Option<DefaultValue>
    ensures { result ≡ negative_whole number }
{
    if number > MOST_WHOLE + 1 {
        return None;
    }
    Some(DefaultValue {
        kind: Kind::Int,
        value: Value::Int(-i128::from(number) as i64),
    })
}

fn decimal_given(number: u64, scale: u8) -> Option<DefaultValue>
    ensures { result ≡ positive_fraction number scale }
{
    if number > MOST_WHOLE {
        return None;
    }
    fraction_given(number as i64, scale)
}

fn negative_decimal(number: u64, scale: u8) -> Option<DefaultValue>
    ensures { result ≡ negative_fraction number scale }
{
    if number > MOST_WHOLE + 1 {
        return None;
    }
    fraction_given(-i128::from(number) as i64, scale)
}

fn fraction_given(units: i64, scale: u8) -> Option<DefaultValue>
    ensures { result ≡ fraction units scale }
{
    match Kind::decimal(scale) {
        Some(kind) => Some(DefaultValue {
            kind,
            value: Value::Decimal(units),
        }),
        None => None,
    }
}
