//! The reserved word that a word in lower case is, if it is one.

ghost use Rattle.std.specs.Prelude.{◌≡◌, bytes_eq};
ghost use Rattle.sql_ast.specs.Words as spec;
ghost use Rattle.sql_ast.specs.Words.{alter_word, constraint_word, expression_word, order_word, statement_word, table_word};

use crate::words::Keyword;

/// The reserved word that a word is; the word is given in lower case.
pub fn keyword_of(word: &[u8]) -> Option<Keyword>
    ensures { result ≡ spec.keyword_of word.now }
{
    of_statements(word)
        .or(of_tables(word))
        .or(of_orders(word))
        .or(of_constraints(word))
        .or(of_expressions(word))
        .or(of_alters(word))
}

fn is(word: &[u8], keyword: &[u8]) -> bool
    ensures { result ≡ bytes_eq word.now keyword.now }
{
    word == keyword
}

fn of_statements(word: &[u8]) -> Option<Keyword>
    ensures { result ≡ statement_word word.now }
{
    if is(word, b"create") {
        Some(Keyword::Create)
    } else if is(word, b"table") {
        Some(Keyword::Table)
    } else if is(word, b"if") {
        Some(Keyword::If)
    } else if is(word, b"not") {
        Some(Keyword::Not)
    } else if is(word, b"exists") {
        Some(Keyword::Exists)
    } else if is(word, b"drop") {
        Some(Keyword::Drop)
    } else if is(word, b"insert") {
        Some(Keyword::Insert)
    } else if is(word, b"into") {
        Some(Keyword::Into)
    } else if is(word, b"values") {
        Some(Keyword::Values)
    } else if is(word, b"update") {
        Some(Keyword::Update)
    } else {
        None
    }
}

fn of_tables(word: &[u8]) -> Option<Keyword>
    ensures { result ≡ table_word word.now }
{
    if is(word, b"set") {
        Some(Keyword::Set)
    } else if is(word, b"where") {
        Some(Keyword::Where)
    } else if is(word, b"delete") {
        Some(Keyword::Delete)
    } else if is(word, b"from") {
        Some(Keyword::From)
    } else if is(word, b"select") {
        Some(Keyword::Select)
    } else if is(word, b"distinct") {
        Some(Keyword::Distinct)
    } else if is(word, b"inner") {
        Some(Keyword::Inner)
    } else if is(word, b"join") {
        Some(Keyword::Join)
    } else if is(word, b"on") {
        Some(Keyword::On)
    } else if is(word, b"group") {
        Some(Keyword::Group)
    } else {
        None
    }
}

fn of_orders(word: &[u8]) -> Option<Keyword>
    ensures { result ≡ order_word word.now }
{
    if is(word, b"by") {
        Some(Keyword::By)
    } else if is(word, b"order") {
        Some(Keyword::Order)
    } else if is(word, b"limit") {
        Some(Keyword::Limit)
    } else if is(word, b"as") {
        Some(Keyword::As)
    } else if is(word, b"start") {
        Some(Keyword::Start)
    } else if is(word, b"true") {
        Some(Keyword::True)
    } else if is(word, b"false") {
        Some(Keyword::False)
    } else if is(word, b"call") {
        Some(Keyword::Call)
    } else if is(word, b"null") {
        Some(Keyword::Null)
    } else if is(word, b"default") {
        Some(Keyword::Default)
    } else {
        None
    }
}

fn of_constraints(word: &[u8]) -> Option<Keyword>
    ensures { result ≡ constraint_word word.now }
{
    if is(word, b"primary") {
        Some(Keyword::Primary)
    } else if is(word, b"key") {
        Some(Keyword::Key)
    } else if is(word, b"unique") {
        Some(Keyword::Unique)
    } else if is(word, b"index") {
        Some(Keyword::Index)
    } else if is(word, b"constraint") {
        Some(Keyword::Constraint)
    } else if is(word, b"check") {
        Some(Keyword::Check)
    } else if is(word, b"foreign") {
        Some(Keyword::Foreign)
    } else if is(word, b"references") {
        Some(Keyword::References)
    } else {
        None
    }
}

fn of_expressions(word: &[u8]) -> Option<Keyword>
    ensures { result ≡ expression_word word.now }
{
    if is(word, b"restrict") {
        Some(Keyword::Restrict)
    } else if is(word, b"or") {
        Some(Keyword::Or)
    } else if is(word, b"and") {
        Some(Keyword::And)
    } else if is(word, b"is") {
        Some(Keyword::Is)
    } else if is(word, b"in") {
        Some(Keyword::In)
    } else if is(word, b"between") {
        Some(Keyword::Between)
    } else if is(word, b"asc") {
        Some(Keyword::Asc)
    } else if is(word, b"desc") {
        Some(Keyword::Desc)
    } else {
        None
    }
}

fn of_alters(word: &[u8]) -> Option<Keyword>
    ensures { result ≡ alter_word word.now }
{
    if is(word, b"alter") {
        Some(Keyword::Alter)
    } else if is(word, b"add") {
        Some(Keyword::Add)
    } else if is(word, b"column") {
        Some(Keyword::Column)
    } else {
        None
    }
}
