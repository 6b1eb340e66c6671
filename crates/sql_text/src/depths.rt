//! How many parentheses an expression's canonical text has open at once, counted on its tree.

ghost use Rattle.std.specs.Prelude.{◌≡◌, map, List, ℕ};
ghost use Rattle.sql_text.specs.Depths.{chained, depth, enclosed, is_deep, paired, ranged};
ghost use Rattle.sql_text.specs.Nesting.{greatest};

use sql_ast::{Expr, MOST_OPEN, Term};

/// Whether an expression's canonical text has too many parentheses open at one place.
pub fn is_too_deep(expr: &Expr) -> bool
    ensures { result ≡ is_deep expr.now }
{
    open_at_once(expr) > MOST_OPEN
}

/// How many parentheses are open at one place of an expression's canonical text, counted up to one more than may be.
#[cycle(depths)]
fn open_at_once(expr: &Expr) -> usize
    ensures { result ≡ depth expr.now }
{
    match expr {
        Expr::Or(a, list) | Expr::And(a, list) | Expr::Factors(a, list) => {
            open_in_chain(open_at_once(a.get()), list.as_slice())
        }
        Expr::Terms(a, list) => open_in_sum(open_at_once(a.get()), list.as_slice()),
        Expr::Compare(a, _, b) => pair(open_at_once(a.get()), open_at_once(b.get())),
        Expr::Not(a)
        | Expr::IsNull(a)
        | Expr::IsNotNull(a)
        | Expr::Negate(a)
        | Expr::Count(a)
        | Expr::Sum(a)
        | Expr::Min(a)
        | Expr::Max(a) => enclose(open_at_once(a.get())),
        Expr::In(a, list) => { pair(open_at_once(a.get()), enclose(most_open(list.as_slice()))) }
        Expr::NotIn(a, list) => {
            enclose(pair(open_at_once(a.get()), enclose(most_open(list.as_slice()))))
        }
        Expr::Between(a, low, high) => {
            range(
                open_at_once(a.get()),
                open_at_once(low.get()),
                open_at_once(high.get()),
            )
        }
        Expr::NotBetween(a, low, high) => {
            enclose(range(
                open_at_once(a.get()),
                open_at_once(low.get()),
                open_at_once(high.get()),
            ))
        }
        Expr::CountAll | Expr::ActiveBranch => 1,
        Expr::Literal(_) | Expr::Name(_) | Expr::Qualified(_, _) | Expr::Variable(_) => 0,
    }
}

#[cycle(depths)]
fn most_open(list: &[Expr]) -> usize
    ensures { result ≡ greatest (map depth list.now) }
{
    let mut most = 0;
    for expr in list {
        let here = open_at_once(expr);
        most = here.max(most);
    }
    most
}

/// As `first` and the others have, each operation with what stands before it as its left operand.
#[cycle(depths)]
fn open_in_chain(first: usize, list: &[Expr]) -> usize
    ensures { result ≡ chained first (map depth list.now) }
{
    let mut open = first;
    for expr in list {
        let here = open_at_once(expr);
        open = pair(open, here);
    }
    open
}

#[cycle(depths)]
fn open_in_sum(first: usize, list: &[(Term, Expr)]) -> usize
    ensures { result ≡ chained first (map (λ term. depth term.1) list.now) }
{
    let mut open = first;
    for term in list {
        let here = open_at_once(&term.1);
        open = pair(open, here);
    }
    open
}

fn enclose(inside: usize) -> usize
    ensures { result ≡ enclosed inside }
{
    inside.saturating_add(1).min(MOST_OPEN + 1)
}

fn pair(a: usize, b: usize) -> usize
    ensures { result ≡ paired a b }
{
    enclose(a.max(b))
}

fn range(a: usize, low: usize, high: usize) -> usize
    ensures { result ≡ ranged a low high }
{
    pair(pair(a, low), pair(a, high))
}
