//! A store in a pair of files: a log in one of them, which may turn to the other, where a snapshot stands for all before.
//!
//! The log with the greater generation is current. A stop at any moment of a turn leaves the old log current or the new one.
#![tactic(auto)]

mod fault;
mod finding;
pub mod laws;
mod opening;
mod store;

pub use fault::{OutOfMemory, StoreFault};
pub use opening::open_store;
pub use store::TwinStore;
