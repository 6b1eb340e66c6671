//! A script's lines run one after another, in the text's order, each by its session over the shared database; or along an order that the script
//! gives. A crate above that runs sessions in another way has a [`Player`] for each, and leads it from moment to moment by [`go_on`] and [`lead`].
#![tactic(auto)]

mod asking;
mod following;
mod going;
mod laws;
mod lines;
mod opening;
mod players;
mod running;

pub use following::{Replayed, replay_script};
pub use going::{go_on, is_free, lead};
pub use laws::law_of_read_scripts;
pub use lines::{number_of, run_script};
pub use opening::counts;
pub use players::{Player, Stage, new_players};
