//! Worked cases of the laws on tasks, locks and chunks: in each what a law supposes is
//! met, and what it says is seen in the rows.
//!
//! Each function is empty. Its contract is a case, in specs/; so the proof of the function is a proof of the case.
#![tactic(auto)]

pub mod chunks;
pub mod tasks;
