//! Answers of queries, as columns with types and rows.

use crate::bytes::Text;
use crate::sequences::Sequence;
use crate::values::{Row, SqlType};

/// A query's answer: columns with one type each, and rows with one value a column.
#[derive(Drop)]
pub struct Answer {
    pub names: Sequence<Text>,
    pub kinds: Sequence<SqlType>,
    pub rows: Sequence<Row>,
}
