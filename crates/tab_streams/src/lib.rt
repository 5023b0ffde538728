//! The table of streams: the publications in their order, and the stored offsets.
#![tactic(auto)]

mod by_stream;
mod keys;
mod likes;
mod offsets;
mod partitions;
mod publications;
mod queries;
mod table;

use std::alloc::AllocError;
pub use table::Streams;

/// Want of memory.
pub type OutOfMemory = AllocError;
