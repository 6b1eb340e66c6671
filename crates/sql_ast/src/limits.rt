//! The limits on a statement's text, each number once.

/// How many parentheses may be open at one place of a statement, and of a CHECK's canonical text.
pub const MOST_OPEN: usize = 64;

/// How many bytes a name may have.
pub const MOST_NAME_BYTES: usize = 64;
