//! CREATE TABLE, DROP TABLE and ALTER TABLE on one database, as plain as they are defined: the whole database anew.
#![tactic(auto)]

mod altering;
mod changing;
mod columns;
mod creating;
mod databases;
mod dropping;
mod making;
mod naming;
mod referring;
mod sizes;

pub use altering::{alter_effect, change_of};
pub use changing::{ColumnChange, table_after};
pub use creating::create_effect;
pub use dropping::drop_effect;
pub use naming::IndexPart;
