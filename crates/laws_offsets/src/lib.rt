//! Laws of stored offsets: published ranges tile each partition up to its stored offset.
//!
//! Each function is empty. Its contract is a law, in specs/, on the definitions of `book_rows`; so
//! the proof of the function is a proof of the law.
#![tactic(auto)]

pub mod comparing;
pub mod coverage;
pub mod effects;
pub mod lookups;
pub mod shape;
pub mod tiling;
