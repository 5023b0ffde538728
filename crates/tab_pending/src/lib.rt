//! The table of pendings, which are the ids that wait to be published, and of upgrade rows.
//!
//! A contract sees two lists, each in the order in which the rows were added. Pendings are found by
//! their source and span, by the request that a root answers, by their root and by their lock;
//! upgrade rows by their lock, alone and with the span of their root.
#![tactic(auto)]

mod ids;
mod keys;
mod lists;
mod pending_queries;
mod ranges;
mod strips;
mod table;
mod upgrade_queries;

pub use keys::{Pending, Upgrade};
pub use pending_queries::PendingTest;
use std::alloc::AllocError;
pub use table::Pendings;

/// Want of memory.
pub type OutOfMemory = AllocError;
