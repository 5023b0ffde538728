//! Rows of tables, lent and found by keys, and the first of them that fails a test or clashes with a later one.
#![tactic(auto)]

pub mod clashes;
pub mod classes;
pub mod id_chunks;
pub mod index;
pub mod keys;
pub mod listed;
pub mod rows;
pub mod same;
pub mod starts;

use std::alloc::AllocError;

/// Want of memory.
pub type OutOfMemory = AllocError;
