//! The tables of a book as one, what a command comes to, and what tasks ask for: to be submitted, to start,
//! to end, locks, and ids of new segments.
#![tactic(auto)]

mod allocating;
mod locks;
mod managing;
mod outcomes;
mod publications;
mod tables;
mod tasks;
mod twins;

pub use allocating::IdRequest;
pub use outcomes::{Outcome, changed, refused, repeated, sup_refusal};
pub use publications::{
    Publish, commit_reply, drop_publication, publication_of, publish_refusal, reset_publication,
    with_spans,
};
use std::alloc::AllocError;
pub use tables::Core;

/// Want of memory.
pub type OutOfMemory = AllocError;
