//! Allocation of segment ids: ids that are known, the place of a new one, and the next part of its
//! chunk.
#![tactic(auto)]

mod allotting;
mod faults;
mod known_ids;
mod places;
mod room;

pub use allotting::allot;
pub use book_rows::{NewPending, Place};
pub use faults::{AllotFault, KnownFault, PlaceFault};
pub use known_ids::known;
pub use places::choose;
pub use room::room_for;
use std::alloc::AllocError;

/// Want of memory.
pub type OutOfMemory = AllocError;
