//! Fields of numbers and texts in bytes, both ways.
//!
//! Numbers are big-endian; a text has its length in one byte before it.
#![tactic(auto)]

mod cursor;
mod laws;
mod put;

pub use cursor::{Cursor, Short};
pub use laws::{fields_are_read_back, values_have_one_field};
pub use put::{put_i64, put_text, put_u8, put_u16, put_u32, put_u64};
use std::alloc::AllocError;

/// Want of memory.
pub type OutOfMemory = AllocError;
