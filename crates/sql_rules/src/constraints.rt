//! The names that are made for constraints without one, and whether they are too long.

ghost use Rattle.std.specs.Prelude.{◌≡◌, IfOk};
ghost use Rattle.std.specs.List.{count_by};
ghost use Rattle.sql_rules.specs.Constraints as spec;
ghost use Rattle.sql_rules.specs.Constraints.{is_free, is_unique_mark, made_name, makes_long, one_if_none, unnamed, unnamed_in, word_of};

use crate::names::some_is_long;
use crate::tables::has_constraint;
use sql_ast::{Attribute, Element};
use std::alloc::{AllocError, Global};
use tuple_codec::{Sequence, Text};

/// The sorts of constraints, whose made names differ in a word.
#[derive(Clone, Copy)]
pub enum Sort {
    /// An index.
    Unique,
    Check,
    ForeignKey,
}

/// Whether a name that is made for a constraint without one has more bytes than a name may have.
pub fn makes_long_name(
    alloc: Global,
    table: &Text,
    elements: &[Element],
    sort: Sort,
) -> Result<bool, AllocError>
    ensures { IfOk result (λ made. made ≡ makes_long table.now elements.now sort) }
{
    let names = made_names(alloc, table, elements, sort)?;
    Ok(some_is_long(names.as_slice()))
}

/// The names that are made for the constraints of a sort that have none, in the text's order.
///
/// A number of constraints that no machine counts is told as want of memory, since no memory holds so many.
pub fn made_names(
    alloc: Global,
    table: &Text,
    elements: &[Element],
    sort: Sort,
) -> Result<Sequence<Text>, AllocError>
    ensures { IfOk result (λ names. names ≡ spec.made_names table.now elements.now sort) }
{
    let mut left = count_unnamed(elements, sort)?;
    let most = left.checked_add(elements.len()).ok_or(AllocError)?;
    let mut names = Sequence::new(alloc);
    for turn in 0..most {
        if left == 0 {
            return Ok(names);
        }
        let name = make_name(alloc, table, sort, turn + 1)?;
        if !is_unused(elements, &name) {
            continue;
        }
        names.push(name)?;
        left -= 1;
    }
    Ok(names)
}

fn is_unused(elements: &[Element], name: &Text) -> bool
    ensures { result ≡ is_free elements.now name.now }
{
    !has_constraint(elements, name.as_slice())
}

fn make_name(alloc: Global, table: &Text, sort: Sort, number: usize) -> Result<Text, AllocError>
    ensures { IfOk result (λ name. name ≡ made_name table.now sort number) }
{
    let mut name = Text::from_slice(alloc, table.as_slice())?;
    name.extend_from_slice(word_between(sort))?;
    let digits = number.to_string(alloc)?;
    name.extend_from_slice(digits.as_bytes())?;
    Ok(name)
}

fn word_between(sort: Sort) -> &'static [u8]
    ensures { result.now ≡ word_of sort }
{
    match sort {
        Sort::Unique => b"_uq_",
        Sort::Check => b"_chk_",
        Sort::ForeignKey => b"_fk_",
    }
}

fn count_unnamed(elements: &[Element], sort: Sort) -> Result<usize, AllocError>
    ensures { IfOk result (λ count. count ≡ unnamed sort elements.now) }
{
    let mut count: usize = 0;
    for element in elements {
        let more = unnamed_of_element(element, sort);
        count = count.checked_add(more).ok_or(AllocError)?;
    }
    Ok(count)
}

fn unnamed_of_element(element: &Element, sort: Sort) -> usize
    ensures { result ≡ unnamed_in sort element.now }
{
    match (sort, element) {
        (Sort::Unique, Element::Column(column)) => count_unique_marks(column.attributes.as_slice()),
        (Sort::Unique, Element::Unique(name, _)) => one_without_name(name),
        (Sort::Check, Element::Check(name, _)) => one_without_name(name),
        (Sort::ForeignKey, Element::ForeignKey(key)) => one_without_name(&key.name),
        _ => 0,
    }
}

fn count_unique_marks(attributes: &[Attribute]) -> usize
    ensures { result ≡ count_by is_unique_mark attributes.now }
{
    attributes
        .iter()
        .filter(|attribute| marks_unique(attribute))
        .count()
}

fn marks_unique(attribute: &Attribute) -> bool
    ensures { result ≡ is_unique_mark attribute.now }
{
    match attribute {
        Attribute::Unique => true,
        _ => false,
    }
}

fn one_without_name(name: &Option<Text>) -> usize
    ensures { result ≡ one_if_none name.now }
{
    match name {
        Some(_) => 0,
        None => 1,
    }
}
