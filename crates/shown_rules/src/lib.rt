//! What a source shows, held against what its publications put there and did not take away.
#![tactic(auto)]

pub mod events;
pub mod history;
pub mod shown;
