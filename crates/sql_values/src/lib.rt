//! Values of expressions: logic of three values, exact numbers, comparison, and what a column keeps of a value.
#![tactic(auto)]

mod assigning;
mod comparing;
mod kinds;
mod logic;
mod numbers;
mod scales;
mod totals;
mod worths;

pub use assigning::{Misfit, assign, may_assign};
pub use comparing::compare;
pub use kinds::{Kind, are_comparable, negative_kind, product_kind, sum_kind};
pub use logic::{and, not, or};
pub use numbers::{add, multiply, negate, subtract};
pub use scales::Scale;
pub use totals::total;
pub use worths::Worth;
