//! Exact sums, differences, products and negatives, or that they are out of range.

ghost use Rattle.std.specs.Prelude.{◌≡◌, ◌≤◌, ◌^◌, ◌*◌, ◌-◌, pos, negsuc, ◌+ℤ◌, ◌-ℤ◌, ◌*ℤ◌, ◌≤ℤ◌};
ghost use Rattle.std.specs.Option.{option_map};
ghost use Rattle.sql_values.specs.Numbers.{minus, moved, at_scale, difference_of, greater_scale, negated, number, on_numbers, plus, product_of, scaled, sum_of, times, whole};
ghost use Rattle.sql_values.specs.Views.{seen};

use crate::scales::Scale;
use crate::worths::Worth;

/// A number exactly: so many units, or tenths, or hundredths, by the scale.
#[derive(Clone, Copy)]
pub struct Number {
    pub units: i64,
    pub scale: Scale,
}

impl Number {
    /// The number that a worth is, truth values being 0 and 1.
    pub fn of(worth: &Worth<'_>) -> Option<Number>
        ensures { result ≡ number (seen worth.now) }
    {
        match worth {
            Worth::Int(units) => Some(Number {
                units: *units,
                scale: Scale::zero(),
            }),
            Worth::Bool(bit) => Some(Number {
                units: i64::from(*bit),
                scale: Scale::zero(),
            }),
            Worth::Decimal(units, scale) => Some(Number {
                units: *units,
                scale: *scale,
            }),
            _ => None,
        }
    }
}

/// The sum, None where it is out of range; NULL where one side is NULL.
pub fn add<'a>(a: &Worth<'_>, b: &Worth<'_>) -> Option<Worth<'a>>
    ensures { option_map seen result ≡ plus (seen a.now) (seen b.now) }
{
    match (a, b) {
        (Worth::Int(a), Worth::Int(b)) => whole(i128::from(*a) + i128::from(*b)),
        _ => match (Number::of(a), Number::of(b)) {
            (Some(a), Some(b)) => decimal_sum(a, b),
            _ => Some(Worth::Null),
        },
    }
}

/// The difference, None where it is out of range; NULL where one side is NULL.
pub fn subtract<'a>(a: &Worth<'_>, b: &Worth<'_>) -> Option<Worth<'a>>
    ensures { option_map seen result ≡ minus (seen a.now) (seen b.now) }
{
    match (a, b) {
        (Worth::Int(a), Worth::Int(b)) => whole(i128::from(*a) - i128::from(*b)),
        _ => match (Number::of(a), Number::of(b)) {
            (Some(a), Some(b)) => decimal_difference(a, b),
            _ => Some(Worth::Null),
        },
    }
}

/// The product, None where it is out of range; NULL where one side is NULL.
pub fn multiply<'a>(a: &Worth<'_>, b: &Worth<'_>) -> Option<Worth<'a>>
    ensures { option_map seen result ≡ times (seen a.now) (seen b.now) }
{
    match (a, b) {
        (Worth::Int(a), Worth::Int(b)) => whole(product(*a, *b)),
        _ => match (Number::of(a), Number::of(b)) {
            (Some(a), Some(b)) => decimal_product(a, b),
            _ => Some(Worth::Null),
        },
    }
}

/// The number with its sign turned, None where it is out of range; NULL for NULL.
pub fn negate<'a>(a: &Worth<'_>) -> Option<Worth<'a>>
    ensures { option_map seen result ≡ negated (seen a.now) }
{
    match a {
        Worth::Int(units) => whole(-i128::from(*units)),
        Worth::Decimal(units, scale) => scaled(-i128::from(*units), scale.get()),
        _ => Some(Worth::Null),
    }
}

fn decimal_sum<'a>(a: Number, b: Number) -> Option<Worth<'a>>
    ensures { option_map seen result ≡ scaled (sum_of a b) }
{
    let scale = greater_scale(&a, &b);
    scaled(sum_at(scale, &a, &b), scale)
}

fn decimal_difference<'a>(a: Number, b: Number) -> Option<Worth<'a>>
    ensures { option_map seen result ≡ scaled (difference_of a b) }
{
    let scale = greater_scale(&a, &b);
    scaled(difference_at(scale, &a, &b), scale)
}

fn sum_at(scale: u8, a: &Number, b: &Number) -> i128
    requires most { scale ≤ 18 }
    requires left { a.now.scale ≤ scale }
    requires right { b.now.scale ≤ scale }
    ensures { result ≡ at_scale scale a.now +ℤ at_scale scale b.now }
{
    at_scale(scale, a) + at_scale(scale, b)
}

fn difference_at(scale: u8, a: &Number, b: &Number) -> i128
    requires most { scale ≤ 18 }
    requires left { a.now.scale ≤ scale }
    requires right { b.now.scale ≤ scale }
    ensures { result ≡ at_scale scale a.now -ℤ at_scale scale b.now }
{
    at_scale(scale, a) - at_scale(scale, b)
}

fn greater_scale(a: &Number, b: &Number) -> u8
    ensures value { result ≡ greater_scale a.now b.now }
    ensures bound { result ≤ 18 }
    ensures left { a.now.scale ≤ result }
    ensures right { b.now.scale ≤ result }
{
    a.scale.get().max(b.scale.get())
}

/// The number in units of a scale that isn't less.
fn at_scale(scale: u8, number: &Number) -> i128
    requires most { scale ≤ 18 }
    requires least { number.now.scale ≤ scale }
    ensures value { result ≡ at_scale scale number.now }
    ensures low { negsuc (2 ^ 63 * 10 ^ 18 - 1) ≤ℤ result }
    ensures high { result ≤ℤ pos (2 ^ 63 * 10 ^ 18) }
{
    moved(scale - number.scale.get(), number.units)
}

fn decimal_product<'a>(a: Number, b: Number) -> Option<Worth<'a>>
    ensures { option_map seen result ≡ scaled (product_of a b) }
{
    scaled(product(a.units, b.units), a.scale.get() + b.scale.get())
}

/// A whole number, if it has 64 bits.
fn whole<'a>(number: i128) -> Option<Worth<'a>>
    ensures { option_map seen result ≡ whole number }
{
    match i64::try_from(number) {
        Ok(number) => Some(Worth::Int(number)),
        Err(_) => None,
    }
}

/// A decimal, if it has at most 18 digits, also behind its point.
fn scaled<'a>(units: i128, scale: u8) -> Option<Worth<'a>>
    ensures { option_map seen result ≡ scaled (record { units = units; scale = scale }) }
{
    match Scale::new(scale) {
        Some(scale) if units.unsigned_abs() < 1_000_000_000_000_000_000 => {
            Some(Worth::Decimal(units as i64, scale))
        }
        _ => None,
    }
}

fn product(a: i64, b: i64) -> i128
    ensures { result ≡ a *ℤ b }
{
    i128::from(a) * i128::from(b)
}

/// The number times ten to this power.
pub fn moved(places: u8, units: i64) -> i128
    requires { places ≤ 18 }
    ensures value { result ≡ moved places units }
    ensures low { negsuc (2 ^ 63 * 10 ^ 18 - 1) ≤ℤ result }
    ensures high { result ≤ℤ pos (2 ^ 63 * 10 ^ 18) }
{
    i128::from(units) * i128::from(power(places))
}

/// Ten to this power.
pub fn power(places: u8) -> u64
    requires { places ≤ 18 }
    ensures value { result ≡ 10 ^ places }
    ensures low { 1 ≤ result }
    ensures high { result ≤ 10 ^ 18 }
{
    match places {
        0 => 1,
        1 => 10,
        2 => 100,
        3 => 1_000,
        4 => 10_000,
        5 => 100_000,
        6 => 1_000_000,
        7 => 10_000_000,
        8 => 100_000_000,
        9 => 1_000_000_000,
        10 => 10_000_000_000,
        11 => 100_000_000_000,
        12 => 1_000_000_000_000,
        13 => 10_000_000_000_000,
        14 => 100_000_000_000_000,
        15 => 1_000_000_000_000_000,
        16 => 10_000_000_000_000_000,
        17 => 100_000_000_000_000_000,
        _ => 1_000_000_000_000_000_000,
    }
}
