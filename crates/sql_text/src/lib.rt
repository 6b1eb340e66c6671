//! The texts of values and expressions, and what an expression shows by its text.
//!
//! A canonical text has operations in parentheses with single spaces, words in capitals, names in lower case. The crates above use
//! `Values.value_text`, the text of a value as replies print it; `Canon.text`, a fold over the expression, which `canonical_text` gives;
//! the folds of `Features`, `Nesting` and `Depths`, by which a statement is judged by its text alone; and `OrderKeys.key_of`, what a key
//! of ORDER BY orders by, which `order_key` gives.
#![tactic(auto)]

mod canon;
mod depths;
mod features;
mod nesting;
mod order_keys;
mod pieces;
mod printed_values;
mod select_names;
mod sizes;

pub use canon::canonical_text;
pub use depths::is_too_deep;
pub use features::{Feature, has_feature, is_aggregate_node, is_long_name, is_variable_name};
pub use nesting::nests_aggregates;
pub use order_keys::{Key, order_key};
pub use printed_values::{push_number, push_row};
pub use select_names::{item_list, source_name};
