//! Laws of the keys of a book: what no two rows share, and which rows the others refer to.
//!
//! Each function is empty. Its contract is a law, in specs/, on the definitions of `book_rows`; so
//! the proof of the function is a proof of the law.
#![tactic(auto)]

pub mod keys;
