//! The checks of publications: which are let through, and the first case of the rules that refuses
//! one.
#![tactic(auto)]

mod appending;
mod dropping;
mod faults;
mod filled;
mod kinds;
mod lists;
mod locks;
mod memberships;
mod over;
mod spans;
mod targets;
mod versions;
mod ways;

pub use appending::check_append;
pub use dropping::check_drop;
pub use faults::PublishFault;
pub use kinds::Filling;
pub use locks::lock_for;
pub use over::{check_over, check_replace, targets_for};
use std::alloc::AllocError;
pub use targets::Target;

/// Want of memory.
pub type OutOfMemory = AllocError;
