//! Worked cases of the law that answers have texts: at the first and the last instants they have, and
//! they have none where a book isn't sound or a command doesn't keep its form.
//!
//! Each function is empty. Its contract is a case, in specs/; so the proof of the function is a proof of the case.
#![tactic(auto)]

pub mod edges;
