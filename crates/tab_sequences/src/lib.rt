//! The table of sequences: by name, by group, and by their live replicas.
#![tactic(auto)]

mod changes;
mod entries;
mod finding;
mod pausing;
mod queries;
mod replicas;
mod states;
mod table;
mod telling;

pub use entries::Sequence;
pub use states::{is_active, is_unpublished};
use std::alloc::AllocError;
pub use table::Sequences;
pub use telling::Closing;

/// Want of memory.
pub type OutOfMemory = AllocError;
