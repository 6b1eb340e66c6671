//! Copies of which contracts know that they equal what was copied.

ghost use Rattle.std.specs.Prelude.{◌≡◌, IfOk};
ghost use Rattle.std.specs.Option.{option_copied};

use schema_model::{CheckDef, Column};
use std::alloc::{AllocError, Global};
use tuple_codec::{Sequence, Text, Value, copy_value};

pub(crate) fn copy_text(alloc: Global, text: &Text) -> Result<Text, AllocError>
    ensures { IfOk result (λ copy. copy ≡ text.now) }
{
    Text::from_slice(alloc, text.as_slice())
}

pub(crate) fn copy_texts(alloc: Global, texts: &[Text]) -> Result<Sequence<Text>, AllocError>
    ensures { IfOk result (λ copy. copy ≡ texts.now) }
{
    let mut copy = Sequence::new(alloc);
    for text in texts {
        copy.push(copy_text(alloc, text)?)?;
    }
    Ok(copy)
}

fn copy_default(alloc: Global, default: Option<&Value>) -> Result<Option<Value>, AllocError>
    ensures { IfOk result (λ copy. copy ≡ option_copied default.entry) }
{
    match default {
        Some(value) => Ok(Some(copy_value(alloc, value)?)),
        None => Ok(None),
    }
}

pub(crate) fn copy_column(alloc: Global, column: &Column) -> Result<Column, AllocError>
    ensures { IfOk result (λ copy. copy ≡ column.now) }
{
    Ok(Column {
        name: copy_text(alloc, &column.name)?,
        kind: column.kind,
        not_null: column.not_null,
        default: copy_default(alloc, column.default.as_ref())?,
    })
}

pub(crate) fn copy_check(alloc: Global, check: &CheckDef) -> Result<CheckDef, AllocError>
    ensures { IfOk result (λ copy. copy ≡ check.now) }
{
    Ok(CheckDef {
        name: copy_text(alloc, &check.name)?,
        text: copy_text(alloc, &check.text)?,
    })
}
