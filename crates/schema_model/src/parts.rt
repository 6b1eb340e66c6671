//! The parts that stand in lists: how each is read, written and measured.

ghost use Rattle.std.specs.Prelude.{◌≡◌, ℕ, ◌<◌, ◌^◌, ◌++◌, ◌&&◌, Bool, true, List, length, nat_lt, OnOk};
ghost use Rattle.std.specs.List.{list_all};
ghost use Rattle.tuple_codec.specs.Fields.{short};
ghost use Rattle.schema_model.specs.SchemaBytes.{check_bytes, column_bytes, foreign_bytes, index_bytes};
ghost use Rattle.schema_model.specs.Reading.{check_at, column_at, foreign_at, index_at};
ghost use Rattle.schema_model.specs.Written.{is_written_check, is_written_column, is_written_foreign, is_written_index, is_written_name};

use crate::fields::{bool_at, flags_at};
use crate::forms::{FormBytes, push_long, push_short};
use crate::lists::{items_at, items_size, push_items};
use crate::readable::Readable;
use crate::schemas::{CheckDef, Column, ForeignKey, IndexDef};
use crate::types::{default_at, default_size, push_default, push_type, type_at, type_size};
use std::alloc::{AllocError, Global};
use tuple_codec::{Sequence, Text, Unread, long_at, short_at};

/// A part of a schema that stands in a list.
pub(crate) trait Part: Readable {
    /// Its bytes.
    ghost written: { Self → List ℕ };

    /// Whether the part can be written.
    ghost allowed: { Self → Bool };

    fn push(&self, out: &mut FormBytes) -> Result<(), AllocError>
        requires { allowed self.now ≡ true }
        ensures { OnOk result (out.new.items ≡ out.old.items ++ written self.now) };

    fn size(&self) -> u64
        requires { length (written self.now) < 2 ^ 64 }
        ensures { result ≡ length (written self.now) };
}

impl Part for Text {
    ghost written = { short };

    ghost allowed = { is_written_name };

    fn push(&self, out: &mut FormBytes) -> Result<(), AllocError> {
        push_short(out, self.as_slice())
    }

    fn size(&self) -> u64 {
        1 + self.as_slice().len() as u64
    }
}

impl Readable for Column {
    ghost front = { column_at };

    #[tactic(auto, unfolding(crate::specs::Reading::column_at))]
    fn read(alloc: Global, bytes: &[u8]) -> Result<(Column, &[u8]), Unread> {
        let (name, rest) = Text::read(alloc, bytes)?;
        let (kind, rest) = type_at(rest)?;
        let ((not_null, has_default), rest) = flags_at(rest)?;
        let (default, rest) = default_at(alloc, has_default, kind, rest)?;
        let column = Column {
            name,
            kind,
            not_null,
            default,
        };
        Ok((column, rest))
    }
}

impl Part for Column {
    ghost written = { column_bytes };

    ghost allowed = { is_written_column };

    fn push(&self, out: &mut FormBytes) -> Result<(), AllocError> {
        self.name.push(out)?;
        push_type(out, &self.kind)?;
        out.push(u8::from(self.not_null) + 2 * u8::from(self.default.is_some()))?;
        push_default(out, self.kind, &self.default)
    }

    fn size(&self) -> u64 {
        self.name.size() + type_size(&self.kind) + 1 + default_size(&self.default)
    }
}

impl Readable for IndexDef {
    ghost front = { index_at };

    #[tactic(auto, unfolding(crate::specs::Reading::index_at))]
    fn read(alloc: Global, bytes: &[u8]) -> Result<(IndexDef, &[u8]), Unread> {
        let (name, rest) = Text::read(alloc, bytes)?;
        let (unique, rest) = bool_at(rest)?;
        let (columns, rest) = short_at(rest)?;
        let columns = Sequence::from_vec(Vec::from_slice(alloc, columns)?);
        let index = IndexDef {
            name,
            unique,
            columns,
        };
        Ok((index, rest))
    }
}

impl Part for IndexDef {
    ghost written = { index_bytes };

    ghost allowed = { is_written_index };

    fn push(&self, out: &mut FormBytes) -> Result<(), AllocError> {
        self.name.push(out)?;
        out.push(u8::from(self.unique))?;
        push_short(out, self.columns.as_slice())
    }

    fn size(&self) -> u64 {
        self.name.size() + 2 + self.columns.as_slice().len() as u64
    }
}

impl Readable for CheckDef {
    ghost front = { check_at };

    #[tactic(auto, unfolding(crate::specs::Reading::check_at))]
    fn read(alloc: Global, bytes: &[u8]) -> Result<(CheckDef, &[u8]), Unread> {
        let (name, rest) = Text::read(alloc, bytes)?;
        let (text, rest) = long_at(rest)?;
        let text = Text::from_slice(alloc, text)?;
        Ok((CheckDef { name, text }, rest))
    }
}

impl Part for CheckDef {
    ghost written = { check_bytes };

    ghost allowed = { is_written_check };

    fn push(&self, out: &mut FormBytes) -> Result<(), AllocError> {
        self.name.push(out)?;
        push_long(out, self.text.as_slice())
    }

    fn size(&self) -> u64 {
        self.name.size() + 2 + self.text.as_slice().len() as u64
    }
}

impl Readable for ForeignKey {
    ghost front = { foreign_at };

    #[tactic(auto, unfolding(crate::specs::Reading::foreign_at))]
    fn read(alloc: Global, bytes: &[u8]) -> Result<(ForeignKey, &[u8]), Unread> {
        let (name, rest) = Text::read(alloc, bytes)?;
        let (columns, rest) = short_at(rest)?;
        let (parent, rest) = Text::read(alloc, rest)?;
        let (parent_columns, rest) = items_at(alloc, columns.len(), rest)?;
        let columns = Sequence::from_vec(Vec::from_slice(alloc, columns)?);
        let foreign = ForeignKey {
            name,
            columns,
            parent,
            parent_columns,
        };
        Ok((foreign, rest))
    }
}

impl Part for ForeignKey {
    ghost written = { foreign_bytes };

    ghost allowed = { is_written_foreign };

    fn push(&self, out: &mut FormBytes) -> Result<(), AllocError> {
        self.name.push(out)?;
        push_short(out, self.columns.as_slice())?;
        self.parent.push(out)?;
        push_items(out, self.parent_columns.as_slice())
    }

    fn size(&self) -> u64 {
        self.name.size()
            + 1
            + self.columns.as_slice().len() as u64
            + self.parent.size()
            + items_size(self.parent_columns.as_slice())
    }
}
