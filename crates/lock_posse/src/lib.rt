//! The table of posses: locks, each with the tasks that hold it together.
//!
//! A contract sees it as the list of its rows, in the order in which they were added. Locks are
//! found by their number, by their source and span, and by each member.
#![tactic(auto)]

mod changes;
mod grants;
mod keys;
mod leaving;
mod over;
mod queries;
mod searches;
mod table;
mod updates;

pub use book_rows::Clear;
pub use grants::change_rows;
pub use keys::Lock;
pub use over::LockTest;
pub use searches::{has_member, is_listed, sorted};
use std::alloc::AllocError;
pub use table::Posses;

/// Want of memory.
pub type OutOfMemory = AllocError;
