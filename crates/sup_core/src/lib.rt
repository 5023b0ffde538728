//! Supervisors and their sequences: which publishes are let through, how sequences close, and when they
//! are abandoned.
#![tactic(auto)]

mod answers;
mod ending;
mod ids;
mod naming;
mod offsets;
mod opening;
mod planning;
mod reports;
mod resets;
mod sizes;
mod starts;
mod supervising;
mod table;
mod telling;
mod ticking;
mod turns;

pub use answers::SupFault;
use std::alloc::AllocError;
pub use table::Supervisors;

/// Want of memory.
pub type OutOfMemory = AllocError;
