//! Laws of lists of parts: which list the timeline is, and which the contents.
//!
//! Parts that ascend, that show at each instant what is given there, and of which no two touch and
//! agree, are one list alone. So any way to find such a list finds the timeline.
//!
//! Each function is empty. Its contract is a law, in specs/, on the definitions of `book_rows`; so
//! the proof of the function is a proof of the law.
#![tactic(auto)]

pub mod one_span;
pub mod parts;
