//! The timeline of each source, kept: a change of some spans is a change of the parts in them alone.
#![tactic(auto)]

mod between;
mod edges;
mod kept;
mod laws;
mod part_list;
mod rows;
mod timeline;
mod view;

pub use kept::Kept;
use std::alloc::AllocError;
pub use view::View;

/// Want of memory.
pub type OutOfMemory = AllocError;
