//! Commands as the bytes of a record, both ways.
//!
//! A command is its tag byte and its values in order. A record's body is one command or more, one
//! after another, to the end of the body.
#![tactic(auto)]

mod decoding;
mod fault;
mod fields;
mod laws;
mod reading;
mod tag;
mod values;
mod writing;

pub use decoding::decode;
pub use fault::CodecFault;
pub use laws::{begins_no_other, has_length, reads_earlier_records, reads_what_it_writes};
use std::alloc::AllocError;
pub use writing::encode;

/// Want of memory.
pub type OutOfMemory = AllocError;
