//! Expressions: their kinds, found before any row is seen, and their values on rows.
#![tactic(auto)]

mod binding;
mod bound;
mod faults;
mod scopes;
mod valuing;

pub use binding::{bind, bind_condition};
pub use bound::{BoundExpr, BoundNode};
pub use faults::{BindFault, EvalFault};
pub use scopes::{ScopeColumn, place_named, place_qualified};
pub use valuing::eval;
