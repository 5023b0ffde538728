//! Whether a command keeps its form, and lists put in order.
#![tactic(auto)]

mod forms;
mod lists;
mod order;
mod values;

pub use forms::keeps_form;
pub use order::put_in_order;
use std::alloc::AllocError;

/// Want of memory.
pub type OutOfMemory = AllocError;
