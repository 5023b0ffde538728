//! Which command a line is.
//!
//! A line is a JSON object (RFC 8259) with the text `do`, which names the command, and the keys of
//! that command.
#![tactic(auto)]

mod fault;
mod lines;
mod lists;
mod values;

pub use fault::LineFault;
pub use lines::read_line;
use std::alloc::AllocError;

/// Want of memory.
pub type OutOfMemory = AllocError;
