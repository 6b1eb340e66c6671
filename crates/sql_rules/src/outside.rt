//! Whether a statement of the grammar is outside the language, whatever the database holds.

ghost use Rattle.std.specs.Prelude.{◌≡◌, is_some, not, IfOk};
ghost use Rattle.sql_rules.specs.Outside.{action_outside, alter_outside, create_outside, makes_some_long, outside, statement_outside, write_outside};
ghost use Rattle.sql_procedures.specs.Arguments.{procedure_of};
ghost use Rattle.sql_rules.specs.Tables.{elements_outside};

use crate::constraints::{Sort, makes_long_name};
use crate::defaults::{altered_column, some_default_is_outside};
use crate::names::{has_long_name, is_kept_by_system};
use crate::selects::is_outside_select;
use crate::tables::{
    is_keyed_once, repeats_column_name, repeats_constraint_name, some_element_is_outside,
};
use crate::writes::{is_outside_delete, is_outside_insert, is_outside_update};
use sql_ast::{Alter, AlterAction, Call, CreateTable, Element, Statement, Write};
use sql_procedures::procedure_named;
use sql_text::is_variable_name;
use std::alloc::{AllocError, Global};
use tuple_codec::Text;

/// Whether a statement of the grammar is outside the language, whatever the database holds.
///
/// That the first word begins no statement, and that too many parentheses are open, is seen before there is a tree.
pub fn is_outside(alloc: Global, statement: &Statement) -> Result<bool, AllocError>
    ensures { IfOk result (λ answer. answer ≡ outside statement.now) }
{
    if has_long_name(statement) {
        return Ok(true);
    }
    is_outside_statement(alloc, statement)
}

fn is_outside_statement(alloc: Global, statement: &Statement) -> Result<bool, AllocError>
    ensures { IfOk result (λ answer. answer ≡ statement_outside statement.now) }
{
    match statement {
        Statement::Write(write) => is_outside_write(alloc, write),
        Statement::Select(select) => Ok(is_outside_select(select)),
        Statement::Begin | Statement::Start | Statement::Commit | Statement::Rollback => Ok(false),
        Statement::Set(setting) => Ok(!is_variable_name(&setting.variable)),
        Statement::Call(call) => Ok(is_other_procedure(call)),
    }
}

fn is_other_procedure(call: &Call) -> bool
    ensures { result ≡ not (is_some (procedure_of call.now.name)) }
{
    procedure_named(&call.name).is_none()
}

fn is_outside_write(alloc: Global, write: &Write) -> Result<bool, AllocError>
    ensures { IfOk result (λ answer. answer ≡ write_outside write.now) }
{
    match write {
        Write::Create(create) => is_outside_create(alloc, create),
        Write::Drop(drop) => Ok(is_kept_by_system(&drop.table)),
        Write::Insert(insert) => Ok(is_outside_insert(insert)),
        Write::Update(update) => Ok(is_outside_update(update)),
        Write::Delete(delete) => Ok(is_outside_delete(delete)),
        Write::Alter(alter) => is_outside_alter(alloc, alter),
    }
}

fn is_outside_alter(alloc: Global, alter: &Alter) -> Result<bool, AllocError>
    ensures { IfOk result (λ answer. answer ≡ alter_outside alter.now) }
{
    if is_kept_by_system(&alter.table) {
        return Ok(true);
    }
    is_outside_action(alloc, &alter.action)
}

fn is_outside_action(alloc: Global, action: &AlterAction) -> Result<bool, AllocError>
    ensures { IfOk result (λ answer. answer ≡ action_outside action.now) }
{
    match action {
        AlterAction::Add(column) => Ok(altered_column(alloc, column)?.is_none()),
        AlterAction::Drop(_) => Ok(false),
        AlterAction::Modify(column) => Ok(altered_column(alloc, column)?.is_none()),
    }
}

fn is_outside_create(alloc: Global, create: &CreateTable) -> Result<bool, AllocError>
    ensures { IfOk result (λ answer. answer ≡ create_outside create.now) }
{
    let elements = create.elements.as_slice();
    if is_kept_by_system(&create.table) {
        return Ok(true);
    }
    if are_outside_elements(elements)? {
        return Ok(true);
    }
    if some_default_is_outside(alloc, elements)? {
        return Ok(true);
    }
    makes_some_long_name(alloc, &create.table, elements)
}

fn are_outside_elements(elements: &[Element]) -> Result<bool, AllocError>
    ensures { IfOk result (λ answer. answer ≡ elements_outside elements.now) }
{
    Ok(
        !is_keyed_once(elements)?
            || repeats_column_name(elements)
            || repeats_constraint_name(elements)
            || some_element_is_outside(elements),
    )
}

fn makes_some_long_name(
    alloc: Global,
    table: &Text,
    elements: &[Element],
) -> Result<bool, AllocError>
    ensures { IfOk result (λ answer. answer ≡ makes_some_long table.now elements.now) }
{
    Ok(
        makes_long_name(alloc, table, elements, Sort::Unique)?
            || makes_long_name(alloc, table, elements, Sort::Check)?
            || makes_long_name(alloc, table, elements, Sort::ForeignKey)?,
    )
}
