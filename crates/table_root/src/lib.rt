//! Tables, databases and branch records as chunks, and a table's rows as items of a tree: written into drafts, and read back.
//!
//! The crates above use the clauses of the calls, over the written forms of `schema_model`, and the words of `specs/`:
//! what may be written, what is found at an address, and which plain table or database an address stands for.
#![tactic(auto)]

mod branches;
mod cells;
mod databases;
mod fields;
mod heads;
mod items;
mod laws;
mod names;
mod parts;
mod reading;
mod records;
mod row_laws;
mod tables;
mod types;

pub use branches::{read_branch, read_branch_bytes, write_branch};
pub use databases::{
    first_listed, listed_tables, read_database, read_database_bytes, write_database,
};
pub use heads::{BranchHead, HeadList, Heads, Look};
pub use items::{row_item, row_items, row_of};
pub use laws::{law_of_databases, law_of_tables, law_of_written_forms};
pub use names::BranchName;
pub use reading::read_rows;
pub use records::{RecordedRoots, StoredTable, TableEntry};
pub use row_laws::law_of_row_items;
pub use tables::{read_table, read_table_bytes, recorded_roots, write_table};
