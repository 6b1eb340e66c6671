//! The kinds of expressions, which of them compare, and the kinds that arithmetic gives.

ghost use Rattle.std.specs.Prelude.{◌≡◌, ◌≤◌, ◌+◌, max};
ghost use Rattle.sql_values.specs.Kinds.{are_comparable, column_type, decimal, is_bool, is_counted, is_int, is_number, kind_of, negative_kind, product_kind, sum_kind};
ghost use Rattle.sql_values.specs.Worths.{scale_of};

use crate::scales::Scale;
use tuple_codec::SqlType;

/// What an expression gives, known before any row is seen.
#[derive(Clone, Copy, PartialEq, Eq)]
pub enum Kind {
    Int,
    Bool,
    Text,
    Bytes,
    Decimal(Scale),
    Null,
}

impl Kind {
    /// The kind of a column, or None where its type is a decimal of more than 18 digits behind the point.
    pub fn of(column: &SqlType) -> Option<Kind>
        ensures { result ≡ kind_of column.now }
    {
        match column {
            SqlType::BigInt | SqlType::Int => Some(Kind::Int),
            SqlType::Bool => Some(Kind::Bool),
            SqlType::Varchar(_) => Some(Kind::Text),
            SqlType::Varbinary(_) => Some(Kind::Bytes),
            SqlType::Decimal(_, scale) => Kind::decimal(*scale),
        }
    }

    /// The kind of decimals of this scale, or None where that is above 18.
    pub fn decimal(scale: u8) -> Option<Kind>
        ensures { result ≡ decimal scale }
    {
        match Scale::new(scale) {
            Some(scale) => Some(Kind::Decimal(scale)),
            None => None,
        }
    }

    /// The type of an answer's column that shows an expression of this kind. Its lengths are no table's: it says how a value is shown.
    pub fn column_type(&self) -> SqlType
        ensures { result ≡ column_type self.now }
    {
        match self {
            Kind::Int | Kind::Null => SqlType::BigInt,
            Kind::Bool => SqlType::Bool,
            Kind::Text => SqlType::Varchar(u16::MAX),
            Kind::Bytes => SqlType::Varbinary(u16::MAX),
            Kind::Decimal(scale) => SqlType::Decimal(18, scale.get()),
        }
    }

    /// The same kind once more.
    pub fn copied(&self) -> Kind
        ensures { result ≡ self.now }
    {
        match self {
            Kind::Int => Kind::Int,
            Kind::Bool => Kind::Bool,
            Kind::Text => Kind::Text,
            Kind::Bytes => Kind::Bytes,
            Kind::Decimal(scale) => Kind::Decimal(*scale),
            Kind::Null => Kind::Null,
        }
    }

    /// How many digits stand behind the point; none but in decimals.
    pub fn scale(&self) -> Scale
        ensures { result ≡ scale_of self.now }
    {
        match self {
            Kind::Decimal(scale) => *scale,
            _ => Scale::zero(),
        }
    }

    /// Whether it takes part in logic.
    pub fn is_bool(&self) -> bool
        ensures { result ≡ is_bool self.now }
    {
        match self {
            Kind::Bool => true,
            _ => false,
        }
    }

    fn is_int(&self) -> bool
        ensures { result ≡ is_int self.now }
    {
        match self {
            Kind::Int => true,
            _ => false,
        }
    }

    /// Whether it takes part in arithmetic.
    fn is_counted(&self) -> bool
        ensures { result ≡ is_counted self.now }
    {
        match self {
            Kind::Int | Kind::Decimal(_) => true,
            _ => false,
        }
    }

    /// Whether its values are compared as numbers; truth values are 0 and 1.
    pub fn is_number(&self) -> bool
        ensures { result ≡ is_number self.now }
    {
        match self {
            Kind::Int | Kind::Bool | Kind::Decimal(_) => true,
            _ => false,
        }
    }
}

/// Whether values of these kinds are compared at all.
pub fn are_comparable(a: &Kind, b: &Kind) -> bool
    ensures { result ≡ are_comparable a.now b.now }
{
    match (a, b) {
        (Kind::Null, _) | (_, Kind::Null) => true,
        (Kind::Text, Kind::Text) | (Kind::Bytes, Kind::Bytes) => true,
        (a, b) => a.is_number() && b.is_number(),
    }
}

/// The kind of a sum or a difference, or None where there is none.
pub fn sum_kind(a: &Kind, b: &Kind) -> Option<Kind>
    ensures { result ≡ sum_kind a.now b.now }
{
    if a.is_int() && b.is_int() {
        Some(Kind::Int)
    } else if a.is_counted() && b.is_counted() {
        Kind::decimal(a.scale().get().max(b.scale().get()))
    } else {
        None
    }
}

/// The kind of a product, or None where there is none.
pub fn product_kind(a: &Kind, b: &Kind) -> Option<Kind>
    ensures { result ≡ product_kind a.now b.now }
{
    if a.is_int() && b.is_int() {
        Some(Kind::Int)
    } else if a.is_counted() && b.is_counted() {
        Kind::decimal(a.scale().get() + b.scale().get())
    } else {
        None
    }
}

/// The kind of a number with its sign turned, or None where there is none.
pub fn negative_kind(kind: &Kind) -> Option<Kind>
    ensures { result ≡ negative_kind kind.now }
{
    if kind.is_counted() {
        Some(kind.copied())
    } else {
        None
    }
}
