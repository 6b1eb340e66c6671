//! Whether an aggregate stands inside another.

ghost use Rattle.std.specs.Prelude.{◌≡◌, map};
ghost use Rattle.sql_text.specs.Nesting.{greatest, nesting, nests, one_more};

use sql_ast::{Expr, Term};

/// Whether an aggregate stands inside another.
pub fn nests_aggregates(expr: &Expr) -> bool
    ensures { result ≡ nests expr.now }
{
    levels(expr) >= 2
}

/// How many aggregates stand one inside another, counted up to two.
#[cycle(nesting)]
fn levels(expr: &Expr) -> u8
    ensures { result ≡ nesting expr.now }
{
    match expr {
        Expr::Compare(a, _, b) => levels(a.get()).max(levels(b.get())),
        Expr::Not(a) | Expr::IsNull(a) | Expr::IsNotNull(a) | Expr::Negate(a) => levels(a.get()),
        Expr::Count(a) | Expr::Sum(a) | Expr::Min(a) | Expr::Max(a) => one_level_more(levels(
            a.get(),
        )),
        Expr::Or(a, list)
        | Expr::And(a, list)
        | Expr::In(a, list)
        | Expr::NotIn(a, list)
        | Expr::Factors(a, list) => levels(a.get()).max(most_levels(list.as_slice())),
        Expr::Terms(a, list) => levels(a.get()).max(most_term_levels(list.as_slice())),
        Expr::Between(a, low, high) | Expr::NotBetween(a, low, high) => {
            levels(a.get())
                .max(levels(low.get()))
                .max(levels(high.get()))
        }
        Expr::CountAll => 1,
        Expr::Literal(_)
        | Expr::Name(_)
        | Expr::Qualified(_, _)
        | Expr::ActiveBranch
        | Expr::Variable(_) => 0,
    }
}

#[cycle(nesting)]
fn most_levels(list: &[Expr]) -> u8
    ensures { result ≡ greatest (map nesting list.now) }
{
    let mut most = 0;
    for expr in list {
        let here = levels(expr);
        most = here.max(most);
    }
    most
}

#[cycle(nesting)]
fn most_term_levels(list: &[(Term, Expr)]) -> u8
    ensures { result ≡ greatest (map (λ term. nesting term.1) list.now) }
{
    let mut most = 0;
    for term in list {
        let here = levels(&term.1);
        most = here.max(most);
    }
    most
}

fn one_level_more(levels: u8) -> u8
    ensures { result ≡ one_more levels }
{
    levels.saturating_add(1).min(2)
}
