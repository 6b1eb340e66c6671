//! A SELECT's answer over tables that are known.

ghost use Rattle.std.specs.Prelude.{◌≡◌, ◌∷◌, [], IfOk, map};
ghost use Rattle.plain_sql.specs.Answers.{answered, answered_of, are_too_many, arranged, cells_shown, groups, headed, keys_shown, once_if, ranked};
ghost use Rattle.plain_sql.specs.Gives.{Gives};
ghost use Rattle.plain_sql.specs.Lists.{each};
ghost use Rattle.plain_sql.specs.Plans.{answer, query_on};
ghost use Rattle.plain_sql.specs.Seen.{heading_seen, key_seen, plan_seen};

use crate::combining::taken;
use crate::distinct::once;
use crate::faults::Refused;
use crate::grouping::{Grouping, groups};
use crate::items::Heading;
use crate::planning::{Plan, planned, planned_alone};
use crate::ranking::{RankedRow, Sorter, cut, sorted};
use crate::shown::cell_of;
use crate::sources::{Known, Read, scope_of, sources_read};
use sql_ast::{Query, Select};
use std::alloc::{AllocError, Global};
use std::slice;
use tuple_codec::{Answer, Row, Sequence, SqlType, Text};

/// So many rows of a SELECT's sources joined may be kept, as far as its conditions keep them.
const MOST_JOINED_ROWS: usize = 10_000_000;

#[tactic(auto, unfolding(crate::specs::Answers::cells_shown))]
fn cells_of(alloc: Global, headings: &[Heading], rows: &[Row]) -> Result<Row, Refused>
    ensures { Gives result (cells_shown (map heading_seen headings.now) rows.now) }
{
    let mut cells = Sequence::from_vec(Vec::with_capacity(alloc, headings.len())?);
    for heading in headings {
        cells.push(cell_of(alloc, &heading.shown, rows)?)?;
    }
    Ok(cells)
}

#[tactic(auto, unfolding(crate::specs::Answers::keys_shown))]
fn keys_of(alloc: Global, keys: &[Sorter], rows: &[Row]) -> Result<Row, Refused>
    ensures { Gives result (keys_shown (map key_seen keys.now) rows.now) }
{
    let mut cells = Sequence::from_vec(Vec::with_capacity(alloc, keys.len())?);
    for key in keys {
        cells.push(cell_of(alloc, &key.shown, rows)?)?;
    }
    Ok(cells)
}

/// What is shown of a group of rows, and what it is ordered by.
fn ranked(alloc: Global, plan: &Plan, rows: &[Row]) -> Result<RankedRow, Refused>
    ensures { Gives result (ranked (plan_seen plan.now) rows.now) }
{
    let cells = cells_of(alloc, plan.headings.as_slice(), rows)?;
    let keys = keys_of(alloc, plan.keys.as_slice(), rows)?;
    Ok(RankedRow { keys, cells })
}

fn all_ranked(
    alloc: Global,
    plan: &Plan,
    groups: &[Sequence<Row>],
) -> Result<Sequence<RankedRow>, Refused>
    ensures { Gives result (each (ranked (plan_seen plan.now)) groups.now) }
{
    let mut ranks = Sequence::new(alloc);
    for rows in groups {
        ranks.push(ranked(alloc, plan, rows.as_slice())?)?;
    }
    Ok(ranks)
}

/// The same, where each row is a group of its own.
fn each_ranked(alloc: Global, plan: &Plan, rows: &[Row]) -> Result<Sequence<RankedRow>, Refused>
    ensures { Gives result (each (λ row. ranked (plan_seen plan.now) (row ∷ [])) rows.now) }
{
    let mut ranks = Sequence::new(alloc);
    for row in rows {
        ranks.push(ranked(alloc, plan, slice::from_ref(row))?)?;
    }
    Ok(ranks)
}

/// Where each row is a group of its own, no list of groups is made.
fn ranks_of(alloc: Global, plan: &Plan, rows: Sequence<Row>) -> Result<Sequence<RankedRow>, Refused>
    ensures { Gives result (each (ranked (plan_seen plan.now)) (groups plan.now.grouping rows)) }
{
    match &plan.grouping {
        Grouping::Single => each_ranked(alloc, plan, rows.as_slice()),
        _ => {
            let groups = groups(alloc, &plan.grouping, rows)?;
            all_ranked(alloc, plan, groups.as_slice())
        }
    }
}

fn are_too_many(rows: &[Row]) -> bool
    ensures { result ≡ are_too_many rows.now }
{
    rows.len() > MOST_JOINED_ROWS
}

fn once_if(
    alloc: Global,
    distinct: bool,
    ranks: Vec<RankedRow>,
) -> Result<Vec<RankedRow>, AllocError>
    ensures { IfOk result (λ left. left.items ≡ once_if distinct ranks.items) }
{
    if distinct {
        once(alloc, ranks)
    } else {
        Ok(ranks)
    }
}

/// DISTINCT, ORDER BY and LIMIT.
fn arranged(alloc: Global, plan: &Plan, ranks: Vec<RankedRow>) -> Result<Vec<RankedRow>, AllocError>
    ensures { IfOk result (λ left. left.items ≡ arranged (plan_seen plan.now) ranks.items) }
{
    let different = once_if(alloc, plan.distinct, ranks)?;
    let ordered = sorted(alloc, plan.keys.as_slice(), different)?;
    cut(&plan.limit, ordered)
}

fn names_of(alloc: Global, headings: &[Heading]) -> Result<Sequence<Text>, AllocError>
    ensures { IfOk result (λ names. names ≡ map (λ heading. heading.name) (map heading_seen headings.now)) }
{
    let mut names = Sequence::new(alloc);
    for heading in headings {
        names.push(Text::from_slice(alloc, heading.name.as_slice())?)?;
    }
    Ok(names)
}

fn types_of(alloc: Global, headings: &[Heading]) -> Result<Sequence<SqlType>, AllocError>
    ensures { IfOk result (λ kinds. kinds ≡ map (λ heading. heading.kind) (map heading_seen headings.now)) }
{
    let mut kinds = Sequence::new(alloc);
    for heading in headings {
        kinds.push(heading.kind)?;
    }
    Ok(kinds)
}

fn rows_of(alloc: Global, ranks: Vec<RankedRow>) -> Result<Sequence<Row>, AllocError>
    ensures { IfOk result (λ rows. rows ≡ map (λ rank. rank.cells) ranks.items) }
{
    let mut rows = Sequence::new(alloc);
    for rank in ranks {
        rows.push(rank.cells)?;
    }
    Ok(rows)
}

fn headed(alloc: Global, plan: &Plan, ranks: Sequence<RankedRow>) -> Result<Answer, AllocError>
    ensures { IfOk result (λ found. found ≡ headed (plan_seen plan.now) ranks) }
{
    let headings = plan.headings.as_slice();
    let ranks = arranged(alloc, plan, ranks.into_vec())?;
    Ok(Answer {
        names: names_of(alloc, headings)?,
        kinds: types_of(alloc, headings)?,
        rows: rows_of(alloc, ranks)?,
    })
}

fn answered_of(alloc: Global, plan: &Plan, rows: Sequence<Row>) -> Result<Answer, Refused>
    ensures { Gives result (answered_of (plan_seen plan.now) rows) }
{
    let too_many = are_too_many(rows.as_slice());
    let ranks = ranks_of(alloc, plan, rows)?;
    if too_many {
        return Err(Refused::By(9010));
    }
    Ok(headed(alloc, plan, ranks)?)
}

fn answered(alloc: Global, plan: &Plan, sources: Sequence<Read>) -> Result<Answer, Refused>
    ensures { Gives result (answered (plan_seen plan.now) (map (λ source. source.rows) sources)) }
{
    let rows = taken(alloc, plan.tests.as_slice(), sources)?;
    answered_of(alloc, plan, rows)
}

fn query_on(alloc: Global, sources: Sequence<Read>, query: &Query) -> Result<Answer, Refused>
    ensures { Gives result (query_on sources query.now) }
{
    let scope = scope_of(alloc, sources.as_slice())?;
    let plan = planned(alloc, scope.as_slice(), query)?;
    answered(alloc, &plan, sources)
}

/// What a SELECT shows of the tables and system tables that are known, or its first refusal.
pub fn answer(alloc: Global, known: &[Known], select: &Select) -> Result<Answer, Refused>
    ensures { Gives result (answer known.now select.now) }
{
    match select {
        Select::From(query) => {
            let sources = sources_read(alloc, known, &query.from)?;
            query_on(alloc, sources, query)
        }
        Select::Alone(list) => {
            let plan = planned_alone(alloc, list.as_slice())?;
            answered(alloc, &plan, Sequence::new(alloc))
        }
    }
}
