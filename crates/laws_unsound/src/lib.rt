//! When a book is unsound, as a definition that computes: the first rule that it breaks, and the least row that breaks it.
//!
//! Each function is empty. Its contract is a law, in specs/, on the definitions of `book_rows`; so
//! the proof of the function is a proof of the law.
#![tactic(auto)]

pub mod naming;
pub mod rules;
pub mod unsound;
