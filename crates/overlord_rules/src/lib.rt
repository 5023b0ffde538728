//! The rules by which the program answers and stores lines, and what holds of their records.
//!
//! The rules are definitions, in specs/. Each function is empty. Its contract is a law on them; so the proof of the
//! function is a proof of the law.
#![tactic(auto)]

pub mod records;
