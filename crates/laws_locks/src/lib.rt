//! Laws of tasks and locks: what every command keeps of the tasks and locks of a book.
//!
//! Each function is empty. Its contract is a law, in specs/, on the definitions of `book_rows`; so
//! the proof of the function is a proof of the law.
#![tactic(auto)]

pub mod commands;
pub mod moves;
pub mod runs;
