//! What a column keeps of a value, or why it keeps none.

ghost use Rattle.std.specs.Prelude.{◌≡◌, ◌≤◌, ◌^◌, true, unsigned_abs, nat_lt};
ghost use Rattle.tuple_codec.specs.Limits.{is_type};
ghost use Rattle.tuple_codec.specs.Rows.{fits_bits};
ghost use Rattle.sql_values.specs.Assigning.{kept_bool, kept_if, kept_number, kept_number_or, kept_short, misfit_number, rounded, rounded_off, stored};
ghost use Rattle.sql_values.specs.Kinds.{may_assign};
ghost use Rattle.sql_values.specs.Numbers.{number};
ghost use Rattle.sql_values.specs.Worths.{worth_of};

use crate::kinds::Kind;
use crate::numbers::{Number, moved, power};
use crate::worths::Worth;
use tuple_codec::{SqlType, Value, value_fits};

/// Why a column doesn't keep a value.
#[derive(Clone, Copy, PartialEq, Eq)]
pub enum Misfit {
    /// A number outside the column's range.
    OutOfRange,
    /// NULL in a column that takes none.
    NotNull,
    /// A text of too many characters, or too many bytes.
    TooLong,
    /// A value of a kind that doesn't go to the column.
    Mismatch,
}

impl Misfit {
    /// The number of the refusal that tells it.
    pub fn number(self) -> u16
        ensures { result ≡ misfit_number self }
    {
        match self {
            Misfit::OutOfRange => 1264,
            Misfit::NotNull => 1048,
            Misfit::TooLong => 1406,
            Misfit::Mismatch => 9001,
        }
    }
}

/// Whether an expression of this kind goes to a column of this type at all.
pub fn may_assign(kind: &Kind, target: &SqlType) -> bool
    ensures { result ≡ may_assign kind.now target.now }
{
    match (kind, target) {
        (Kind::Null, _) => true,
        (Kind::Text, SqlType::Varchar(_)) => true,
        (Kind::Bytes, SqlType::Varbinary(_)) => true,
        (Kind::Text | Kind::Bytes, _) => false,
        (_, SqlType::Varchar(_) | SqlType::Varbinary(_)) => false,
        _ => true,
    }
}

/// What a column keeps of a value of this kind: numbers are rounded to its scale before their range is judged.
pub fn assign(kind: &Kind, target: &SqlType, not_null: bool, value: Value) -> Result<Value, Misfit>
    requires { is_type target.now ≡ true }
    ensures { result ≡ stored kind.now target.now not_null value }
{
    match (target, value) {
        (_, Value::Null) => {
            if not_null {
                Err(Misfit::NotNull)
            } else {
                Ok(Value::Null)
            }
        }
        (SqlType::Varchar(_), Value::Text(text)) => short(target, Value::Text(text)),
        (SqlType::Varbinary(_), Value::Bytes(bytes)) => short(target, Value::Bytes(bytes)),
        (target, value) => match Number::of(&Worth::of(kind, &value)) {
            Some(number) => kept(target, number),
            None => Err(Misfit::Mismatch),
        },
    }
}

/// A text or a byte string, if it isn't too long.
fn short(target: &SqlType, value: Value) -> Result<Value, Misfit>
    ensures { result ≡ kept_short target.now value }
{
    if value_fits(target, &value) {
        Ok(value)
    } else {
        Err(Misfit::TooLong)
    }
}

/// A number as the column keeps it.
fn kept(target: &SqlType, number: Number) -> Result<Value, Misfit>
    requires { is_type target.now ≡ true }
    ensures { result ≡ kept_number target.now number }
{
    match target {
        SqlType::BigInt => bigint(rounded(0, number)),
        SqlType::Int => int(rounded(0, number)),
        SqlType::Bool => bit(rounded(0, number)),
        SqlType::Decimal(digits, scale) => decimal(*digits, rounded(*scale, number)),
        SqlType::Varchar(_) | SqlType::Varbinary(_) => Err(Misfit::Mismatch),
    }
}

fn bigint(number: i128) -> Result<Value, Misfit>
    ensures { result ≡ kept_if (fits_bits 63 number) (Value.Int number) }
{
    match i64::try_from(number) {
        Ok(number) => Ok(Value::Int(number)),
        Err(_) => Err(Misfit::OutOfRange),
    }
}

fn int(number: i128) -> Result<Value, Misfit>
    ensures { result ≡ kept_if (fits_bits 31 number) (Value.Int number) }
{
    match i32::try_from(number) {
        Ok(number) => Ok(Value::Int(i64::from(number))),
        Err(_) => Err(Misfit::OutOfRange),
    }
}

fn bit(number: i128) -> Result<Value, Misfit>
    ensures { result ≡ kept_bool number }
{
    match number {
        0 => Ok(Value::Bool(false)),
        1 => Ok(Value::Bool(true)),
        _ => Err(Misfit::OutOfRange),
    }
}

fn decimal(digits: u8, number: i128) -> Result<Value, Misfit>
    requires { digits ≤ 18 }
    ensures { result ≡ kept_if (nat_lt (unsigned_abs number) (10 ^ digits)) (Value.Decimal number) }
{
    if number.unsigned_abs() < u128::from(power(digits)) {
        Ok(Value::Decimal(number as i64))
    } else {
        Err(Misfit::OutOfRange)
    }
}

/// The number in units of this scale.
fn rounded(scale: u8, number: Number) -> i128
    requires { scale ≤ 18 }
    ensures { result ≡ rounded scale number }
{
    let given = number.scale.get();
    if given <= scale {
        moved(scale - given, number.units)
    } else {
        rounded_off(given - scale, number.units)
    }
}

/// The number divided by ten to this power, to the nearest, a half away from zero.
fn rounded_off(places: u8, units: i64) -> i128
    requires { places ≤ 18 }
    ensures { result ≡ rounded_off places units }
{
    let unit = power(places);
    let size = (units.unsigned_abs() + unit / 2) / unit;
    if units < 0 {
        -i128::from(size)
    } else {
        i128::from(size)
    }
}
