//! The views of a source: its timeline, its contents, and what a replacement has to read.
//!
//! The first two are built from left to right, over the starts and ends of what is used. What makes such a
//! list the timeline, and the only one, is a law of `laws_parts`.
#![tactic(auto)]

mod chunk_parts;
mod ends;
mod ids;
mod looks;
mod marks;
mod replacing;
mod root_parts;
mod sweep;
mod turns;

pub use chunk_parts::{covers_of, ids_named, part_of, timeline};
pub use ids::same_ids;
pub use replacing::to_replace;
pub use root_parts::contents;
use std::alloc::AllocError;
pub use sweep::{Cover, Event, Stretch, stretches};

/// Want of memory.
pub type OutOfMemory = AllocError;
