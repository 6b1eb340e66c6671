//! What an expression is worth on a row, to and from cells and truth values.

ghost use Rattle.std.specs.Prelude.{◌≡◌, IfOk};
ghost use Rattle.sql_values.specs.Worths.{cell_of, is_unknown, of_truth, truth, worth_of};
ghost use Rattle.sql_values.specs.Views.{seen};

use crate::kinds::Kind;
use crate::scales::Scale;
use std::alloc::{AllocError, Global};
use tuple_codec::{Sequence, Text, Value};

/// What an expression is worth on a row: texts are borrowed, and a decimal knows its scale.
#[derive(Clone, Copy)]
pub enum Worth<'a> {
    Null,
    Int(i64),
    Bool(bool),
    Text(&'a [u8]),
    Bytes(&'a [u8]),
    /// The number times ten to its scale.
    Decimal(i64, Scale),
}

impl<'a> Worth<'a> {
    /// What a cell of this kind is worth.
    pub fn of(kind: &Kind, value: &'a Value) -> Worth<'a>
        ensures { seen result ≡ worth_of kind.now value.now }
    {
        match value {
            Value::Null => Worth::Null,
            Value::Int(number) => Worth::Int(*number),
            Value::Bool(bit) => Worth::Bool(*bit),
            Value::Text(text) => Worth::Text(text.as_slice()),
            Value::Bytes(bytes) => Worth::Bytes(bytes.as_slice()),
            Value::Decimal(number) => Worth::Decimal(*number, kind.scale()),
        }
    }

    /// The cell of this worth; a text or a byte string is copied.
    pub fn to_value(self, alloc: Global) -> Result<Value, AllocError>
        ensures { IfOk result (λ value. value ≡ cell_of (seen self.entry)) }
    {
        match self {
            Worth::Null => Ok(Value::Null),
            Worth::Int(number) => Ok(Value::Int(number)),
            Worth::Bool(bit) => Ok(Value::Bool(bit)),
            Worth::Text(text) => Ok(Value::Text(Text::from_slice(alloc, text)?)),
            Worth::Bytes(bytes) => {
                let bytes = Vec::from_slice(alloc, bytes)?;
                Ok(Value::Bytes(Sequence::from_vec(bytes)))
            }
            Worth::Decimal(number, _) => Ok(Value::Decimal(number)),
        }
    }

    /// The truth value, or None where it is NULL.
    pub fn truth(&self) -> Option<bool>
        ensures { result ≡ truth (seen self.now) }
    {
        match self {
            Worth::Bool(bit) => Some(*bit),
            _ => None,
        }
    }

    /// What a truth value is worth; None is NULL.
    pub fn of_truth(truth: Option<bool>) -> Worth<'a>
        ensures { seen result ≡ of_truth truth }
    {
        match truth {
            Some(bit) => Worth::Bool(bit),
            None => Worth::Null,
        }
    }

    /// Whether it is NULL, of whatever kind the expression is.
    pub fn is_null(&self) -> bool
        ensures { result ≡ is_unknown (seen self.now) }
    {
        match self {
            Worth::Null => true,
            _ => false,
        }
    }
}
