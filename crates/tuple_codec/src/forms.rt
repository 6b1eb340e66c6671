//! The two forms in which cells are spelled: as keys and as rows.

/// How cells are spelled: as keys, whose order their bytes keep, or as rows.
#[derive(Clone, Copy)]
pub enum Form {
    Key,
    Row,
}
