//! The laws joined: every command that keeps its form keeps a book sound.
//!
//! Each function is empty. Its contract is a law, in specs/, on the definitions of `book_rows`; so
//! the proof of the function is a proof of the law.
#![tactic(auto)]

pub mod reached;
pub mod soundness;
