//! The law that a book can be kept as a snapshot: every command that keeps its form leads from a sound
//! book that has bytes to one that has bytes.
//!
//! Each function is empty. Its contract is a law, in specs/, on the definitions of `book_rows` and
//! `snap_codec`; so the proof of the function is a proof of the law.
#![tactic(auto)]

pub mod bytes;
