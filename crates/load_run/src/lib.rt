//! Stores the items of a load one by one, and puts out one line about them at the end.
#![tactic(auto)]

mod finishing;
mod items;
mod loader;
mod run;
mod storing;
mod tally;

pub use items::Items;
pub use loader::Loader;
pub use run::run_load;
pub use tally::Tally;
