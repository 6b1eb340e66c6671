//! Writes on one database and its violations, as plain as they are defined.
//!
//! By the law of [`writes_keep`] a database within the limits on data stays one.
#![tactic(auto)]

mod assigning;
mod binding;
mod breaking;
mod checking;
mod columns;
mod copies;
mod effects;
mod inserting;
mod keyed;
mod limits;
mod listing;
mod ordered;
mod parents;
mod places;
mod tables;
mod updating;
mod violating;
mod write_laws;

pub use assigning::{assigned, standard};
pub use binding::{assignments, tests_of};
pub use breaking::Broken;
pub use checking::{Reads, check_of};
pub use columns::{column_place, own_scope};
pub use copies::{copy_column, copy_named, copy_schema, with_rows};
pub use effects::{Effect, delete_effect, insert_effect, replaced, update_effect};
pub use inserting::{Given, new_row, new_rows, places_named, tuple_said, tuples_said};
pub use keyed::by_key;
pub use limits::is_large;
pub use listing::{Found, first_violation, violations};
pub use parents::same_types;
pub use tables::{Dispute, NamedTable, Table, table_in};
pub use updating::{BoundAssignment, Later, all_chosen, all_turned};
pub use write_laws::writes_keep;
