//! The commands of a generated load.
#![tactic(auto)]

mod commands;
mod drawing;
mod generator;
mod names;
mod summary;

pub use generator::{BLOCK_LIMIT, LoadGen};
pub use names::source;
use std::alloc::AllocError;
pub use summary::{Summary, summary_line};

/// Want of memory.
pub type OutOfMemory = AllocError;
