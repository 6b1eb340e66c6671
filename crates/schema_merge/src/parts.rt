//! The kinds of parts that are merged by name.

ghost use Rattle.std.specs.Prelude.{◌≡◌, ◌<◌, ℕ, List, length, bytes_eq, IfOk};
ghost use Rattle.std.specs.Option.{option_copied};
ghost use Rattle.schema_merge.specs.Parts.{PartKind, of_checks, of_columns, of_foreign, of_indexes, sides};

use crate::copies::{copy_check, copy_column, copy_text, copy_texts};
use crate::covering::covers_all;
use crate::finding::{keeps_places, moved_places};
use crate::names::keeps_names;
use crate::same::{same_column, same_names, same_texts, same_truth};
use schema_model::{CheckDef, Column, ForeignKey, IndexDef, Schema};
use std::alloc::{AllocError, Global};

/// What has a name in a schema.
pub(crate) trait Named {
    ghost called: { Self → List ℕ };

    fn name(&self) -> &[u8]
        ensures { result.now ≡ called self.now };

    fn is_called(&self, name: &[u8]) -> bool
        ensures { result ≡ bytes_eq (called self.now) name.now };
}

/// A part of a schema that is merged by its name.
pub(crate) trait Part: Named + Drop {
    /// What the definitions say of this kind of part.
    ghost kind: { PartKind Self };

    /// Those of a schema.
    fn parts(schema: &Schema) -> &[Self]
        ensures { result.now ≡ kind.parts schema.now };

    /// Whether it has the same definition as a part of another schema.
    fn is_same(&self, schema: &Schema, other: &Self, other_schema: &Schema) -> bool
        ensures { result ≡ kind.same schema.now self.now other_schema.now other.now };

    /// A copy of it, taken from a side, as it stands in the schema of the merged columns; None where it can't.
    fn moved(
        &self,
        alloc: Global,
        base: Option<&Schema>,
        ours: &Schema,
        theirs: &Schema,
        columns: &[Column],
        side: &Schema,
    ) -> Result<Option<Self>, AllocError>
        requires { length columns.now < 256 }
        ensures { IfOk result (λ part. part ≡ kind.moved (sides (option_copied base.entry) ours.now theirs.now) columns.now side.now self.now) };
}

impl Named for Column {
    ghost called = { λ part. part.name };

    fn name(&self) -> &[u8] {
        self.name.as_slice()
    }

    fn is_called(&self, name: &[u8]) -> bool {
        self.name.is(name)
    }
}

impl Part for Column {
    ghost kind = { of_columns };

    fn parts(schema: &Schema) -> &[Column] {
        schema.columns.as_slice()
    }

    fn is_same(&self, _schema: &Schema, other: &Column, _other_schema: &Schema) -> bool {
        same_column(self, other)
    }

    fn moved(
        &self,
        alloc: Global,
        base: Option<&Schema>,
        ours: &Schema,
        theirs: &Schema,
        _columns: &[Column],
        _side: &Schema,
    ) -> Result<Option<Column>, AllocError> {
        if covers_all(self, base, ours, theirs) {
            Ok(Some(copy_column(alloc, self)?))
        } else {
            Ok(None)
        }
    }
}

impl Named for IndexDef {
    ghost called = { λ part. part.name };

    fn name(&self) -> &[u8] {
        self.name.as_slice()
    }

    fn is_called(&self, name: &[u8]) -> bool {
        self.name.is(name)
    }
}

impl Part for IndexDef {
    ghost kind = { of_indexes };

    fn parts(schema: &Schema) -> &[IndexDef] {
        schema.indexes.as_slice()
    }

    fn is_same(&self, schema: &Schema, other: &IndexDef, other_schema: &Schema) -> bool {
        same_truth(self.unique, other.unique)
            && same_names(
                schema.columns.as_slice(),
                self.columns.as_slice(),
                other_schema.columns.as_slice(),
                other.columns.as_slice(),
            )
    }

    fn moved(
        &self,
        alloc: Global,
        _base: Option<&Schema>,
        _ours: &Schema,
        _theirs: &Schema,
        columns: &[Column],
        side: &Schema,
    ) -> Result<Option<IndexDef>, AllocError> {
        if !keeps_places(columns, side, self.columns.as_slice()) {
            return Ok(None);
        }
        Ok(Some(IndexDef {
            name: copy_text(alloc, &self.name)?,
            unique: self.unique,
            columns: moved_places(alloc, columns, side, self.columns.as_slice())?,
        }))
    }
}

impl Named for CheckDef {
    ghost called = { λ part. part.name };

    fn name(&self) -> &[u8] {
        self.name.as_slice()
    }

    fn is_called(&self, name: &[u8]) -> bool {
        self.name.is(name)
    }
}

impl Part for CheckDef {
    ghost kind = { of_checks };

    fn parts(schema: &Schema) -> &[CheckDef] {
        schema.checks.as_slice()
    }

    fn is_same(&self, _schema: &Schema, other: &CheckDef, _other_schema: &Schema) -> bool {
        self.text.is(other.text.as_slice())
    }

    fn moved(
        &self,
        alloc: Global,
        _base: Option<&Schema>,
        _ours: &Schema,
        _theirs: &Schema,
        columns: &[Column],
        side: &Schema,
    ) -> Result<Option<CheckDef>, AllocError> {
        if keeps_names(alloc, columns, side, self.text.as_slice())? {
            Ok(Some(copy_check(alloc, self)?))
        } else {
            Ok(None)
        }
    }
}

impl Named for ForeignKey {
    ghost called = { λ part. part.name };

    fn name(&self) -> &[u8] {
        self.name.as_slice()
    }

    fn is_called(&self, name: &[u8]) -> bool {
        self.name.is(name)
    }
}

impl Part for ForeignKey {
    ghost kind = { of_foreign };

    fn parts(schema: &Schema) -> &[ForeignKey] {
        schema.foreign.as_slice()
    }

    fn is_same(&self, schema: &Schema, other: &ForeignKey, other_schema: &Schema) -> bool {
        same_names(
            schema.columns.as_slice(),
            self.columns.as_slice(),
            other_schema.columns.as_slice(),
            other.columns.as_slice(),
        ) && self.parent.is(other.parent.as_slice())
            && same_texts(
                self.parent_columns.as_slice(),
                other.parent_columns.as_slice(),
            )
    }

    fn moved(
        &self,
        alloc: Global,
        _base: Option<&Schema>,
        _ours: &Schema,
        _theirs: &Schema,
        columns: &[Column],
        side: &Schema,
    ) -> Result<Option<ForeignKey>, AllocError> {
        if !keeps_places(columns, side, self.columns.as_slice()) {
            return Ok(None);
        }
        Ok(Some(ForeignKey {
            name: copy_text(alloc, &self.name)?,
            columns: moved_places(alloc, columns, side, self.columns.as_slice())?,
            parent: copy_text(alloc, &self.parent)?,
            parent_columns: copy_texts(alloc, self.parent_columns.as_slice())?,
        }))
    }
}
