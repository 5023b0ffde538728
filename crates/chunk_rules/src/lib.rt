//! Chunks of a book: the least row of one whose span, version, core or copies break a rule.
#![tactic(auto)]

pub mod below_locks;
pub mod copied;
pub mod copies;
pub mod lives;
pub mod one_span;
pub mod whole;
