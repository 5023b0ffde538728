//! Spans of time, as sets of instants.
//!
//! An instant is a number of milliseconds from 1970-01-01T00:00 UTC.
#![tactic(auto)]

mod span;

pub use span::{EmptySpan, Span, condense};
use std::alloc::AllocError;

/// Want of memory.
pub type OutOfMemory = AllocError;
