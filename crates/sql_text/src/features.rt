//! What the parts of an expression show: aggregates, words of the session, long names, unknown variables.

ghost use Rattle.std.specs.Prelude.{◌≡◌};
ghost use Rattle.std.specs.List.{list_any};
ghost use Rattle.sql_text.specs.Features.{has, shows, is_long, is_variable, is_aggregate, is_session_word, has_long_name, is_other_variable};
ghost use Rattle.sql_ast.specs.declared.expressions.Expr.{out-Expr};

use sql_ast::{Expr, MOST_NAME_BYTES, Term};
use tuple_codec::Text;

/// What a part of an expression can be.
#[derive(Clone, Copy, PartialEq, Eq)]
pub enum Feature {
    /// A call of COUNT, SUM, MIN or MAX.
    Aggregate,
    /// `@@` and a name, or `active_branch()`.
    SessionWord,
    /// A name of more bytes than a name may have.
    LongName,
    /// `@@` and a name that no variable has.
    OtherVariable,
}

/// Whether a name has more bytes than a name may have.
pub fn is_long_name(name: &Text) -> bool
    ensures { result ≡ is_long name.now }
{
    name.as_slice().len() > MOST_NAME_BYTES
}

/// Whether a variable of the session has this name.
pub fn is_variable_name(name: &Text) -> bool
    ensures { result ≡ is_variable name.now }
{
    name.is(b"autocommit")
        || name.is(b"dolt_allow_commit_conflicts")
        || name.is(b"dolt_force_transaction_commit")
}

/// Whether an expression's own node shows a feature.
fn node_shows(expr: &Expr, feature: Feature) -> bool
    ensures { result ≡ shows feature (out-Expr expr.now) }
{
    match feature {
        Feature::Aggregate => is_aggregate_node(expr),
        Feature::SessionWord => is_session_node(expr),
        Feature::LongName => has_long_name_node(expr),
        Feature::OtherVariable => is_other_variable_node(expr),
    }
}

/// Whether an expression is itself a call of an aggregate.
pub fn is_aggregate_node(expr: &Expr) -> bool
    ensures { result ≡ is_aggregate (out-Expr expr.now) }
{
    match expr {
        Expr::CountAll | Expr::Count(_) | Expr::Sum(_) | Expr::Min(_) | Expr::Max(_) => true,
        _ => false,
    }
}

fn is_session_node(expr: &Expr) -> bool
    ensures { result ≡ is_session_word (out-Expr expr.now) }
{
    match expr {
        Expr::ActiveBranch | Expr::Variable(_) => true,
        _ => false,
    }
}

fn has_long_name_node(expr: &Expr) -> bool
    ensures { result ≡ has_long_name (out-Expr expr.now) }
{
    match expr {
        Expr::Name(name) | Expr::Variable(name) => is_long_name(name),
        Expr::Qualified(source, name) => is_long_name(source) || is_long_name(name),
        _ => false,
    }
}

fn is_other_variable_node(expr: &Expr) -> bool
    ensures { result ≡ is_other_variable (out-Expr expr.now) }
{
    match expr {
        Expr::Variable(name) => !is_variable_name(name),
        _ => false,
    }
}

/// Whether an expression, or some part of it, shows a feature.
#[cycle(features)]
pub fn has_feature(expr: &Expr, feature: Feature) -> bool
    ensures { result ≡ has feature expr.now }
{
    if node_shows(expr, feature) {
        return true;
    }
    match expr {
        Expr::Compare(a, _, b) => has_feature(a.get(), feature) || has_feature(b.get(), feature),
        Expr::Not(a)
        | Expr::IsNull(a)
        | Expr::IsNotNull(a)
        | Expr::Negate(a)
        | Expr::Count(a)
        | Expr::Sum(a)
        | Expr::Min(a)
        | Expr::Max(a) => has_feature(a.get(), feature),
        Expr::Or(a, list)
        | Expr::And(a, list)
        | Expr::In(a, list)
        | Expr::NotIn(a, list)
        | Expr::Factors(a, list) => {
            has_feature(a.get(), feature) || some_has(list.as_slice(), feature)
        }
        Expr::Terms(a, list) => {
            has_feature(a.get(), feature) || some_term_has(list.as_slice(), feature)
        }
        Expr::Between(a, low, high) | Expr::NotBetween(a, low, high) => {
            has_feature(a.get(), feature)
                || has_feature(low.get(), feature)
                || has_feature(high.get(), feature)
        }
        Expr::Literal(_)
        | Expr::Name(_)
        | Expr::Qualified(_, _)
        | Expr::CountAll
        | Expr::ActiveBranch
        | Expr::Variable(_) => false,
    }
}

#[cycle(features)]
fn some_has(list: &[Expr], feature: Feature) -> bool
    ensures { result ≡ list_any (has feature) list.now }
{
    for expr in list {
        if has_feature(expr, feature) {
            return true;
        }
    }
    false
}

#[cycle(features)]
fn some_term_has(list: &[(Term, Expr)], feature: Feature) -> bool
    ensures { result ≡ list_any (λ term. has feature term.1) list.now }
{
    for term in list {
        if has_feature(&term.1, feature) {
            return true;
        }
    }
    false
}
