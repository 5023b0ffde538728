//! Books as bytes, both ways: the snapshot that a store begins with.
//!
//! A snapshot is the book's three numbers and its ten tables, each with its count before it.
#![tactic(auto)]

mod decoding;
mod fault;
mod fields;
mod laws;
mod marks;
mod rows;
mod values;
mod writing;

pub use decoding::decode_book;
pub use fault::SnapFault;
pub use laws::{reads_earlier_snapshots, reads_what_it_writes, writes_limited_books};
use std::alloc::AllocError;
pub use writing::encode_book;

/// Want of memory.
pub type OutOfMemory = AllocError;
