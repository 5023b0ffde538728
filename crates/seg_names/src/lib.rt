//! Names of data sources, ids of tasks and ids of segments, with their texts.
#![tactic(auto)]

mod laws;
mod name;
mod reading;
mod seg_id;
mod task_id;
mod utf8;

pub use laws::has_one_text;
pub use name::{Name, NameFault};
pub use seg_id::{SegFault, SegId};
use std::alloc::AllocError;
pub use task_id::TaskId;

/// Want of memory.
pub type OutOfMemory = AllocError;
