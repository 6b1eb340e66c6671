//! The kinds of rows that tests make trees of.

/// How a row is made of a number and a byte.
#[derive(Clone, Copy)]
pub enum Rows {
    /// The number in eight bytes; the byte 300 times.
    Long,
    /// A BIGINT, which is the primary key, and a VARCHAR(8), in which the byte stands eight times.
    Short,
}
