//! Which tasks are submitted, which of them wait, and which may end.
#![tactic(auto)]

mod queue;

pub use queue::{QueueFault, may_end, submit, waiting};
use std::alloc::AllocError;

/// Want of memory.
pub type OutOfMemory = AllocError;
