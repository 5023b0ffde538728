//! Laws of supervisors' sequences: what their names tell, that each goes on where the one before it
//! ends, and what a publish of a replica is answered.
//!
//! Each function is empty. Its contract is a law, in specs/, on the definitions of `book_rows`; so
//! the proof of the function is a proof of the law.
#![tactic(auto)]

pub mod commands;
pub mod moves;
pub mod names;
pub mod publishes;
pub mod reached;
pub mod reports;
pub mod rule;
pub mod streams;
pub mod ticks;
