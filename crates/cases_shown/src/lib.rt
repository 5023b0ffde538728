//! Worked cases of the laws on what is shown, on soundness, and on locks and ids from first to last: in each what a law supposes is
//! met, and what it says is seen in the rows.
//!
//! Each function is empty. Its contract is a case, in specs/; so the proof of the function is a proof of the case.
#![tactic(auto)]

pub mod allocated;
pub mod revocation;
pub mod shown;
pub mod shown_day;
pub mod sound;
