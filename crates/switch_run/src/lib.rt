//! An example of `machine_run`: a switch, and orders to turn it on or off, which aren't lines.
#![tactic(auto)]

mod orders;
mod run;
mod switch;

pub use orders::Orders;
pub use run::run_switch;
pub use switch::Switch;
