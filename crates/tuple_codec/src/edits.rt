//! Edits of a list by key, and the changes between two lists.

use crate::values::Blob;

/// What is done to one key of a list: a value is put there, or the key is removed.
#[derive(Clone, Drop, PartialEq, Eq)]
pub struct Edit {
    pub key: Blob,
    pub value: Option<Blob>,
}

/// A key at which two lists differ, with what each has there; none is absence.
#[derive(Clone, Drop, PartialEq, Eq)]
pub struct ItemChange {
    pub key: Blob,
    pub old: Option<Blob>,
    pub new: Option<Blob>,
}
