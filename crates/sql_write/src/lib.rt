//! Statements that write, on a database that a draft keeps as trees; how one of its tables is found by name and put back; and the list of its
//! tables' names and addresses.
#![tactic(auto)]

mod altering;
mod building;
mod creating;
mod differences;
mod dropping;
mod edits;
mod faults;
mod finding;
mod inserting;
mod laws;
mod listing;
mod putting;
mod reading;
mod schemas;
mod tables;
mod turning;
mod updating;
mod writing;

pub use faults::SqlFault;
pub use finding::{Found, find};
pub use laws::laws_of_growth;
pub use listing::{placed, without};
pub use tables::{put_database, put_table, read_tables, table_in};
pub use writing::{Written, write};
