//! The SQL text as tokens, as pieces, and as trees.
//!
//! A piece is a token with its value; the grammar reads pieces.
//! A tree has one variant for each alternative of the grammar and one field for each of its parts, in the grammar's
//! order. Parentheses leave no trace. Names are in lower case.
#![tactic(auto)]

mod byte_strings;
mod bytes;
mod expressions;
mod faults;
mod held;
mod keywords;
mod lexer;
mod limits;
mod lower_words;
mod marks;
mod numbers;
mod pieces;
mod places;
mod reading;
mod selects;
mod signing;
mod signs;
mod slices;
mod statements;
mod strings;
mod tables;
mod token_lists;
mod tokens;
mod words;

pub use bytes::hex_value;
pub use expressions::{Comparison, Expr, Literal, Term};
pub use faults::{ReadFault, Refusal};
pub use keywords::keyword_of;
pub use lexer::lex;
pub use limits::{MOST_NAME_BYTES, MOST_OPEN};
pub use pieces::Piece;
pub use reading::{Pieces, canonical_pieces_of, pieces_of};
pub use selects::{
    Clauses, ColumnName, Direction, FromClause, Items, Join, Limit, NamedExpr, OrderKey, Query,
    Select, SelectItem, Sorting, TableSource,
};
pub use signing::sign_of;
pub use signs::Sign;
pub use statements::{
    Alter, AlterAction, Assignment, Call, Delete, Insert, InsertCell, Setting, Statement, Tuple,
    Update, Write,
};
pub use tables::{
    Attribute, ColumnElement, CreateTable, DropTable, Element, ForeignKeyElement, TypeName,
};
pub use token_lists::TokenList;
pub use tokens::{Token, TokenKind};
pub use words::Keyword;
