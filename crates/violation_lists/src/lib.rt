//! The violations of a whole database that a draft keeps as trees: its tables read, the rows that break a constraint listed, and the database that
//! has recorded them.
//!
//! The crates above use `specs/Scanning.antt`, which databases can be read, and what of a database a constraint looks at;
//! `specs/Written.antt`, violations with the bytes of their keys and rows; `specs/Recording.antt` and `specs/Recorded.antt`, which lists a
//! database may record, and the database that has; and `specs/Seeking.antt` and `specs/Roots.antt`, keys sought by their first bytes, and the index
//! in which they are.
#![tactic(auto)]

mod canonical;
mod entries;
mod laws;
mod listing;
mod quiet;
mod reading;
mod recording;
mod thinning;

pub use canonical::CanonicalChecks;
pub use entries::{begins_another, begins_any, root_for, starts};
pub use laws::law_of_recording;
pub use listing::{ListedViolation, violations};
pub use reading::{read_schemas, read_tables};
pub use recording::{keep_table, record_violations};
pub use thinning::is_constrained;
