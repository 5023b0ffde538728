//! Laws of limits: room in the tables, and the limits of their rows.
//!
//! Each function is empty. Its contract is a law, in specs/, on the definitions of `book_rows`; so
//! the proof of the function is a proof of the law.
#![tactic(auto)]

pub mod laws;
