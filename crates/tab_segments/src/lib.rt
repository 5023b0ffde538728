//! The table of segments: the chunks, and the segments that are in them.
//!
//! A contract sees two lists, each in the order in which its rows were added. Chunks are found by
//! what names them and by their version over a span. Of the segments of a chunk the first that is
//! used leads: what is asked of chunks visits these alone.
#![tactic(auto)]

mod chunks;
mod clearing;
mod entries;
mod leading;
mod list;
mod queries;
mod searches;
mod table;
mod unusing;
mod used;
mod visible;

pub use chunks::Chunk;
use std::alloc::AllocError;
pub use table::Segments;

/// Want of memory.
pub type OutOfMemory = AllocError;
