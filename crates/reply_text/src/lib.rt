//! The lines of replies: compact JSON (RFC 8259), one line a reply.
//!
//! The keys of an object ascend by their bytes. Instants, spans and ids are texts, in full.
#![tactic(auto)]

mod line;
mod object;
mod parts;
mod refusal;
mod reply;
mod shown;
mod texts;
mod words;

pub use line::reply_line;
use std::alloc::AllocError;

/// Want of memory.
pub type OutOfMemory = AllocError;
