//! SELECT without sources that asks for what only the session knows: the values stand in their places before it is answered.

ghost use Rattle.std.specs.Prelude.{◌≡◌, IfOk, map};
ghost use Rattle.sql_ast.specs.declared.expressions.Expr.{out-Expr};
ghost use Rattle.sql_ast.specs.declared.expressions.Expr.TheVariants as node;
ghost use Rattle.sql_ast.specs.declared.expressions.Literal.TheVariants as constant;
ghost use Rattle.sql_ast.specs.declared.selects.Select.TheVariants as select;
ghost use Rattle.plain_sql.specs.Plans.{own_name, shown_name};
ghost use Rattle.plain_sessions.specs.Sessions as plain;
ghost use Rattle.plain_sessions.specs.Sessions.{is_on};
ghost use Rattle.plain_sessions.specs.Statements.{item_with_values, number_of, select_with_values, with_values};
ghost use Rattle.session_state.specs.Standing.{SessionStands};
ghost use Rattle.session_txn.specs.Values.{AreValuesOf, asked_of, kept_name, with_ends, with_list, with_part};

use session_state::Session;
use sql_ast::{Comparison, Expr, Literal, NamedExpr, Select, Term};
use sql_text::{Feature, canonical_text, has_feature};
use std::alloc::{AllocError, Global};
use tuple_codec::{Boxed, Digester, Sequence, Text};

/// What a SELECT may ask a session for.
#[derive(Drop)]
pub(crate) struct Values {
    autocommit: bool,
    allow: bool,
    force: bool,
    branch: Text,
}

pub(crate) fn values_of<D: Digester>(
    alloc: Global,
    session: &Session<D>,
) -> Result<Values, AllocError>
    ensures { IfOk result (λ values. (p : plain.Session) → SessionStands D.address session.now p → AreValuesOf p values) }
{
    Ok(Values {
        autocommit: session.autocommit,
        allow: session.allow,
        force: session.force,
        branch: Text::from_slice(alloc, session.branch.bytes())?,
    })
}

/// A SELECT of these items without sources, with the session's values in their places.
pub(crate) fn select_with_values(
    alloc: Global,
    values: &Values,
    list: &[NamedExpr],
) -> Result<Boxed<Select>, AllocError>
    ensures { IfOk result (λ made. made ≡ select_with_values (asked_of values.now) (select.Alone list.now)) }
{
    let list = list_with_values(alloc, values, list)?;
    Boxed::new(alloc, Select::Alone(list))
}

fn list_with_values(
    alloc: Global,
    values: &Values,
    list: &[NamedExpr],
) -> Result<Sequence<NamedExpr>, AllocError>
    ensures { IfOk result (λ made. made ≡ map (item_with_values (asked_of values.now)) list.now) }
{
    let mut made = Sequence::new(alloc);
    for named in list {
        made.push(item_with_values(alloc, values, named)?)?;
    }
    Ok(made)
}

fn item_with_values(
    alloc: Global,
    values: &Values,
    named: &NamedExpr,
) -> Result<NamedExpr, AllocError>
    ensures { IfOk result (λ made. made ≡ item_with_values (asked_of values.now) named.now) }
{
    let name = kept_name(alloc, named)?;
    let expr = with_values(alloc, values, &named.expr)?;
    Ok(NamedExpr {
        expr: expr.into_inner(),
        name,
    })
}

/// The name that an item has once the values are in their places.
fn kept_name(alloc: Global, named: &NamedExpr) -> Result<Option<Text>, AllocError>
    ensures { IfOk result (λ name. name ≡ kept_name named.now) }
{
    if has_feature(&named.expr, Feature::SessionWord) {
        Ok(Some(shown_name(alloc, named)?))
    } else {
        copied_name(alloc, &named.name)
    }
}

fn copied_name(alloc: Global, name: &Option<Text>) -> Result<Option<Text>, AllocError>
    ensures { IfOk result (λ copy. copy ≡ name.now) }
{
    match name {
        Some(name) => Ok(Some(Text::from_slice(alloc, name.as_slice())?)),
        None => Ok(None),
    }
}

/// An item's name: by AS, else by the column's name, else by the canonical text.
fn shown_name(alloc: Global, named: &NamedExpr) -> Result<Text, AllocError>
    ensures { IfOk result (λ name. name ≡ shown_name named.now.name named.now.expr) }
{
    match &named.name {
        Some(name) => Text::from_slice(alloc, name.as_slice()),
        None => own_name(alloc, &named.expr),
    }
}

fn own_name(alloc: Global, expr: &Expr) -> Result<Text, AllocError>
    ensures { IfOk result (λ name. name ≡ own_name expr.now (out-Expr expr.now)) }
{
    match expr {
        Expr::Name(name) => Text::from_slice(alloc, name.as_slice()),
        Expr::Qualified(_, name) => Text::from_slice(alloc, name.as_slice()),
        _ => canonical_text(alloc, expr),
    }
}

/// A copy of an expression, with the values in their places.
#[cycle(with_values)]
fn with_values(alloc: Global, values: &Values, expr: &Expr) -> Result<Boxed<Expr>, AllocError>
    ensures { IfOk result (λ made. made ≡ with_values (asked_of values.now) expr.now) }
{
    match expr {
        Expr::Or(a, list)
        | Expr::And(a, list)
        | Expr::In(a, list)
        | Expr::NotIn(a, list)
        | Expr::Factors(a, list) => {
            listed_with_values(alloc, values, expr, a.get(), list.as_slice())
        }
        Expr::Not(a)
        | Expr::IsNull(a)
        | Expr::IsNotNull(a)
        | Expr::Negate(a)
        | Expr::Count(a)
        | Expr::Sum(a)
        | Expr::Min(a)
        | Expr::Max(a) => {
            let a = with_values(alloc, values, a.get())?;
            Boxed::new(alloc, with_part(expr, a))
        }
        Expr::Compare(a, op, b) => compared_with_values(alloc, values, a.get(), *op, b.get()),
        Expr::Between(a, low, high) | Expr::NotBetween(a, low, high) => {
            between_with_values(alloc, values, expr, a.get(), low.get(), high.get())
        }
        Expr::Terms(a, list) => sum_with_values(alloc, values, a.get(), list.as_slice()),
        Expr::Literal(literal) => {
            Boxed::new(alloc, Expr::Literal(copied_literal(alloc, literal)?))
        }
        Expr::Name(name) => {
            Boxed::new(alloc, Expr::Name(Text::from_slice(alloc, name.as_slice())?))
        }
        Expr::Qualified(source, name) => copied_qualified(alloc, source, name),
        Expr::CountAll => Boxed::new(alloc, Expr::CountAll),
        Expr::ActiveBranch => branch_of(alloc, values),
        Expr::Variable(name) => variable_of(alloc, values, name),
    }
}

/// A chain, or a value in a list.
#[cycle(with_values)]
fn listed_with_values(
    alloc: Global,
    values: &Values,
    like: &Expr,
    first: &Expr,
    list: &[Expr],
) -> Result<Boxed<Expr>, AllocError>
    ensures { IfOk result (λ made. made ≡ with_list (out-Expr like.now) (with_values (asked_of values.now) first.now) (map (with_values (asked_of values.now)) list.now)) }
{
    let first = with_values(alloc, values, first)?;
    let list = all_with_values(alloc, values, list)?;
    Boxed::new(alloc, with_list(like, first, list))
}

/// A comparison with its operands.
#[cycle(with_values)]
fn compared_with_values(
    alloc: Global,
    values: &Values,
    a: &Expr,
    op: Comparison,
    b: &Expr,
) -> Result<Boxed<Expr>, AllocError>
    ensures { IfOk result (λ made. made ≡ node.Compare (with_values (asked_of values.now) a.now) op (with_values (asked_of values.now) b.now)) }
{
    let a = with_values(alloc, values, a)?;
    let b = with_values(alloc, values, b)?;
    Boxed::new(alloc, Expr::Compare(a, op, b))
}

/// A value between two ends.
#[cycle(with_values)]
fn between_with_values(
    alloc: Global,
    values: &Values,
    like: &Expr,
    value: &Expr,
    low: &Expr,
    high: &Expr,
) -> Result<Boxed<Expr>, AllocError>
    ensures { IfOk result (λ made. made ≡ with_ends (out-Expr like.now) (with_values (asked_of values.now) value.now) (with_values (asked_of values.now) low.now) (with_values (asked_of values.now) high.now)) }
{
    let value = with_values(alloc, values, value)?;
    let low = with_values(alloc, values, low)?;
    let high = with_values(alloc, values, high)?;
    Boxed::new(alloc, with_ends(like, value, low, high))
}

/// A chain whose operands have each a sign of its own.
#[cycle(with_values)]
fn sum_with_values(
    alloc: Global,
    values: &Values,
    first: &Expr,
    list: &[(Term, Expr)],
) -> Result<Boxed<Expr>, AllocError>
    ensures { IfOk result (λ made. made ≡ node.Terms (with_values (asked_of values.now) first.now) (map (λ x. (x.0, with_values (asked_of values.now) x.1)) list.now)) }
{
    let first = with_values(alloc, values, first)?;
    let list = terms_with_values(alloc, values, list)?;
    Boxed::new(alloc, Expr::Terms(first, list))
}

#[cycle(with_values)]
fn all_with_values(
    alloc: Global,
    values: &Values,
    list: &[Expr],
) -> Result<Sequence<Expr>, AllocError>
    ensures { IfOk result (λ made. made ≡ map (with_values (asked_of values.now)) list.now) }
{
    let mut made = Sequence::new(alloc);
    for expr in list {
        made.push(with_values(alloc, values, expr)?.into_inner())?;
    }
    Ok(made)
}

#[cycle(with_values)]
fn terms_with_values(
    alloc: Global,
    values: &Values,
    list: &[(Term, Expr)],
) -> Result<Sequence<(Term, Expr)>, AllocError>
    ensures { IfOk result (λ made. made ≡ map (λ x. (x.0, with_values (asked_of values.now) x.1)) list.now) }
{
    let mut made = Sequence::new(alloc);
    for (term, expr) in list {
        made.push((*term, with_values(alloc, values, expr)?.into_inner()))?;
    }
    Ok(made)
}

/// A node of the same kind with another part.
fn with_part(like: &Expr, part: Boxed<Expr>) -> Expr
    ensures { result ≡ with_part (out-Expr like.now) part }
{
    match like {
        Expr::Not(_) => Expr::Not(part),
        Expr::IsNull(_) => Expr::IsNull(part),
        Expr::IsNotNull(_) => Expr::IsNotNull(part),
        Expr::Negate(_) => Expr::Negate(part),
        Expr::Count(_) => Expr::Count(part),
        Expr::Sum(_) => Expr::Sum(part),
        Expr::Min(_) => Expr::Min(part),
        Expr::Max(_) => Expr::Max(part),
        _ => part.into_inner(),
    }
}

/// A node of the same kind with another first part and another list.
fn with_list(like: &Expr, first: Boxed<Expr>, rest: Sequence<Expr>) -> Expr
    ensures { result ≡ with_list (out-Expr like.now) first rest }
{
    match like {
        Expr::Or(_, _) => Expr::Or(first, rest),
        Expr::And(_, _) => Expr::And(first, rest),
        Expr::In(_, _) => Expr::In(first, rest),
        Expr::NotIn(_, _) => Expr::NotIn(first, rest),
        Expr::Factors(_, _) => Expr::Factors(first, rest),
        _ => first.into_inner(),
    }
}

/// A node of the same kind with another value and other ends.
fn with_ends(like: &Expr, value: Boxed<Expr>, low: Boxed<Expr>, high: Boxed<Expr>) -> Expr
    ensures { result ≡ with_ends (out-Expr like.now) value low high }
{
    match like {
        Expr::Between(_, _, _) => Expr::Between(value, low, high),
        Expr::NotBetween(_, _, _) => Expr::NotBetween(value, low, high),
        _ => value.into_inner(),
    }
}

fn copied_literal(alloc: Global, literal: &Literal) -> Result<Literal, AllocError>
    ensures { IfOk result (λ copy. copy ≡ literal.now) }
{
    match literal {
        Literal::Whole(number) => Ok(Literal::Whole(*number)),
        Literal::Decimal(number, scale) => Ok(Literal::Decimal(*number, *scale)),
        Literal::Text(text) => Ok(Literal::Text(Text::from_slice(alloc, text.as_slice())?)),
        Literal::Bytes(bytes) => {
            let bytes = Vec::from_slice(alloc, bytes.as_slice())?;
            Ok(Literal::Bytes(Sequence::from_vec(bytes)))
        }
        Literal::Bool(bit) => Ok(Literal::Bool(*bit)),
        Literal::Null => Ok(Literal::Null),
    }
}

fn copied_qualified(alloc: Global, source: &Text, name: &Text) -> Result<Boxed<Expr>, AllocError>
    ensures { IfOk result (λ copy. copy ≡ node.Qualified source.now name.now) }
{
    let source = Text::from_slice(alloc, source.as_slice())?;
    let name = Text::from_slice(alloc, name.as_slice())?;
    Boxed::new(alloc, Expr::Qualified(source, name))
}

/// The session's branch.
fn branch_of(alloc: Global, values: &Values) -> Result<Boxed<Expr>, AllocError>
    ensures { IfOk result (λ made. made ≡ node.Literal (constant.Text values.now.branch)) }
{
    let branch = Text::from_slice(alloc, values.branch.as_slice())?;
    Boxed::new(alloc, Expr::Literal(Literal::Text(branch)))
}

/// The value of the variable of this name: 1 or 0.
fn variable_of(alloc: Global, values: &Values, name: &Text) -> Result<Boxed<Expr>, AllocError>
    ensures { IfOk result (λ made. made ≡ node.Literal (constant.Whole (number_of (is_on (asked_of values.now).variables name.now)))) }
{
    let on = is_on(values, name.as_slice());
    Boxed::new(alloc, Expr::Literal(Literal::Whole(u64::from(on))))
}

/// Whether the variable of this name is 1.
fn is_on(values: &Values, name: &[u8]) -> bool
    ensures { result ≡ is_on (asked_of values.now).variables name.now }
{
    if name == b"autocommit".as_slice() {
        values.autocommit
    } else if name == b"dolt_allow_commit_conflicts".as_slice() {
        values.allow
    } else {
        values.force
    }
}
