//! The stored offsets of a stream: whether published ranges go on from them, and what a publication
//! and a reset make of them.
#![tactic(auto)]

mod advancing;
mod comparing;
mod faults;
mod resets;
mod room;

pub use advancing::advance;
pub use comparing::compare;
pub use faults::OffsetFault;
pub use resets::{reset, room_for_reset};
pub use room::{exceeds, room_for_ranges};
use std::alloc::AllocError;

/// Want of memory.
pub type OutOfMemory = AllocError;
