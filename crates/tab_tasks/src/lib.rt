//! The table of tasks: by id, and in the order in which they were submitted.
#![tactic(auto)]

mod tasks;
mod waiting;

use std::alloc::AllocError;
pub use tasks::Tasks;

/// Want of memory.
pub type OutOfMemory = AllocError;
