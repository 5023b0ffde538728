//! Laws of the soundness rules on chunks: what each small change of a book keeps, what every command keeps, and what
//! the rules mean.
//!
//! Each function is empty. Its contract is a law, in specs/, on the definitions of `book_rows`; so
//! the proof of the function is a proof of the law.
#![tactic(auto)]

pub mod changes;
pub mod commands;
pub mod meaning;
pub mod places;
