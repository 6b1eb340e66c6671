//! What a piece is taken for at the head of a table's element, of a type, of an attribute and of an action of ALTER.

ghost use Rattle.std.specs.Prelude.{◌≡◌};
ghost use Rattle.sql_statements.specs.TableHeads as spec;

use sql_ast::{Keyword, Piece};
use tuple_codec::Text;

/// The words that begin the elements of a table, but for columns.
#[derive(Clone, Copy)]
pub enum ElementHead {
    Primary,
    Unique,
    /// KEY or INDEX.
    Index,
    Constraint,
    Check,
    Foreign,
}

/// The statement that defines a column.
#[derive(Clone, Copy)]
pub enum Definer {
    Create,
    Alter,
}

/// The words that begin the actions of ALTER.
#[derive(Clone, Copy)]
pub enum ActionHead {
    Add,
    Drop,
    Modify,
}

/// The words that begin the attributes of a column.
#[derive(Clone, Copy)]
pub enum AttributeHead {
    Not,
    Null,
    Default,
    Primary,
    Unique,
}

/// The words that begin types.
#[derive(Clone, Copy)]
pub enum TypeHead {
    BigInt,
    Int,
    Bool,
    TinyInt,
    Varchar,
    Varbinary,
    Decimal,
}

fn keyword_element(word: Keyword) -> Option<ElementHead>
    ensures { result ≡ spec.keyword_element word }
{
    match word {
        Keyword::Primary => Some(ElementHead::Primary),
        Keyword::Unique => Some(ElementHead::Unique),
        Keyword::Key => Some(ElementHead::Index),
        Keyword::Index => Some(ElementHead::Index),
        Keyword::Constraint => Some(ElementHead::Constraint),
        Keyword::Check => Some(ElementHead::Check),
        Keyword::Foreign => Some(ElementHead::Foreign),
        _ => None,
    }
}

/// The key or constraint that a piece begins; None where an element is a column.
pub fn element_of(piece: &Piece) -> Option<ElementHead>
    ensures { result ≡ spec.element_of piece.now }
{
    match piece {
        Piece::Keyword(word) => keyword_element(*word),
        _ => None,
    }
}

fn keyword_attribute(word: Keyword) -> Option<AttributeHead>
    ensures { result ≡ spec.keyword_attribute word }
{
    match word {
        Keyword::Not => Some(AttributeHead::Not),
        Keyword::Null => Some(AttributeHead::Null),
        Keyword::Default => Some(AttributeHead::Default),
        Keyword::Primary => Some(AttributeHead::Primary),
        Keyword::Unique => Some(AttributeHead::Unique),
        _ => None,
    }
}

fn keyword_of_alter(word: Keyword) -> Option<AttributeHead>
    ensures { result ≡ spec.keyword_of_alter word }
{
    match word {
        Keyword::Not => Some(AttributeHead::Not),
        Keyword::Null => Some(AttributeHead::Null),
        Keyword::Default => Some(AttributeHead::Default),
        _ => None,
    }
}

fn attribute_in(definer: Definer, word: Keyword) -> Option<AttributeHead>
    ensures { result ≡ spec.attribute_in definer word }
{
    match definer {
        Definer::Create => keyword_attribute(word),
        Definer::Alter => keyword_of_alter(word),
    }
}

/// The attribute that a piece begins, None where a column ends; in ALTER, PRIMARY KEY and UNIQUE are none.
pub fn attribute_of(definer: Definer, piece: &Piece) -> Option<AttributeHead>
    ensures { result ≡ spec.attribute_of definer piece.now }
{
    match piece {
        Piece::Keyword(word) => attribute_in(definer, *word),
        _ => None,
    }
}

fn keyword_action(word: Keyword) -> Option<ActionHead>
    ensures { result ≡ spec.keyword_action word }
{
    match word {
        Keyword::Add => Some(ActionHead::Add),
        Keyword::Drop => Some(ActionHead::Drop),
        _ => None,
    }
}

fn word_action(name: &Text) -> Option<ActionHead>
    ensures { result ≡ spec.word_action name.now }
{
    if name.is(b"modify") {
        Some(ActionHead::Modify)
    } else {
        None
    }
}

/// The action of ALTER that a piece begins; ADD and DROP are reserved words, MODIFY is a bare word that isn't.
pub fn action_of(piece: &Piece) -> Option<ActionHead>
    ensures { result ≡ spec.action_of piece.now }
{
    match piece {
        Piece::Keyword(word) => keyword_action(*word),
        Piece::Word(name) => word_action(name),
        _ => None,
    }
}

fn plain_type(name: &Text) -> Option<TypeHead>
    ensures { result ≡ spec.plain_type name.now }
{
    if name.is(b"bigint") {
        Some(TypeHead::BigInt)
    } else if name.is(b"int") {
        Some(TypeHead::Int)
    } else if name.is(b"integer") {
        Some(TypeHead::Int)
    } else if name.is(b"bool") {
        Some(TypeHead::Bool)
    } else if name.is(b"boolean") {
        Some(TypeHead::Bool)
    } else {
        None
    }
}

fn sized_type(name: &Text) -> Option<TypeHead>
    ensures { result ≡ spec.sized_type name.now }
{
    if name.is(b"tinyint") {
        Some(TypeHead::TinyInt)
    } else if name.is(b"varchar") {
        Some(TypeHead::Varchar)
    } else if name.is(b"varbinary") {
        Some(TypeHead::Varbinary)
    } else if name.is(b"decimal") {
        Some(TypeHead::Decimal)
    } else {
        None
    }
}

fn type_named(name: &Text) -> Option<TypeHead>
    ensures { result ≡ spec.type_named name.now }
{
    match plain_type(name) {
        Some(head) => Some(head),
        None => sized_type(name),
    }
}

/// The type that a bare word names, which may want numbers behind it; None for all else, a name in backquotes too.
pub fn type_of(piece: &Piece) -> Option<TypeHead>
    ensures { result ≡ spec.type_of piece.now }
{
    match piece {
        Piece::Word(name) => type_named(name),
        _ => None,
    }
}

/// The 1 of `TINYINT(1)`.
pub fn one_of(piece: &Piece) -> Option<()>
    ensures { result ≡ spec.one_of piece.now }
{
    match piece {
        Piece::Whole(value) => { if *value == 1 { Some(()) } else { None } }
        _ => None,
    }
}
