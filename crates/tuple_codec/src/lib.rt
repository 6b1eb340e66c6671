//! Rows and what they are made of: types, values, texts, addresses, and the records that name them.
//!
//! The crates above use the definitions of `specs/` (which value fits a type, how cells and keys are ordered, which
//! bytes a key, a row and an address have, what edits make of lists of rows), the clauses that tie the calls to them, and the
//! laws: that key bytes keep the order of keys, that bytes are one row's alone, and what edits and changes come to at each key.
#![tactic(auto)]

mod address_text;
mod addresses;
mod answers;
mod boxed;
mod bytes;
mod cells;
mod copies;
mod edit_laws;
mod edits;
mod fields;
mod forms;
mod key_codec;
mod numbers;
mod records;
mod row_codec;
mod rows;
mod sequences;
mod sizes;
mod texts;
mod unread;
mod values;

pub use addresses::{Address, Digester};
pub use answers::Answer;
pub use boxed::Boxed;
pub use bytes::Text;
pub use copies::{copy_row, copy_value};
pub use edit_laws::edits_by_key;
pub use edits::{Edit, ItemChange};
pub use fields::{bytes_at, long_at, push_long, short_at};
pub use key_codec::{
    decode_key, encode_key, keys_are_one_spelling, keys_keep_order, push_key_cell,
};
pub use records::BranchRecord;
pub use row_codec::{decode_row, encode_row, push_row_cell, rows_are_one_spelling};
pub use rows::{cell_at, key_cmp, key_of, same_cells, same_cells_are_one, same_value};
pub use sequences::Sequence;
pub use sizes::{key_cell_size, key_size, row_cell_size, row_size};
pub use unread::Unread;
pub use values::{Blob, Row, SqlType, Value, is_text, value_fits};
