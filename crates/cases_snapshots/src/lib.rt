//! Worked cases of snapshots: the bytes of books, byte by byte, and the places at which bytes are no
//! book's.
//!
//! Each function is empty. Its contract is a case, in specs/; so the proof of the function is a proof of the case.
#![tactic(auto)]

pub mod books;
pub mod places;
