//! The rows of a publish are put into the tables: whether there is room for them, and what each table
//! is after it.
#![tactic(auto)]

mod adding;
mod committing;
mod room;
mod taking;

pub use adding::{add_chunks, add_pendings, add_segments, add_upgrades};
pub use committing::commit;
pub use room::{room_for_append, room_for_drop, room_for_insert, room_for_replace};
use std::alloc::AllocError;
pub use taking::{take_roots, use_up};

/// Want of memory.
pub type OutOfMemory = AllocError;
