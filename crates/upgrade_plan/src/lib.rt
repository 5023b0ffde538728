//! The rows that a publish adds.
//!
//! An append adds its ids and their copies as segments, and what the replacements that are under
//! way have to carry of them. An insert and a replacement add the chunks and segments of their
//! spans; a replacement also adds copies of what it has to carry.
#![tactic(auto)]

mod appending;
mod carrying;
mod copying;
mod filling;
mod ids;
mod spans;

pub use appending::{AppendRows, append_rows, rows_for_append};
pub use book_rows::Copies;
pub use carrying::posse_for_append;
pub use copying::copies_for_replace;
pub use filling::{OverRows, over_rows};
use std::alloc::AllocError;

/// Want of memory.
pub type OutOfMemory = AllocError;
