//! The tests of the allocation of segment ids.
//!
//! Each public call on its happy path, and what a repeat, a cut chunk, a last part and a full chunk come to.
#![tactic(auto)]

#[cfg(test)]
mod fixtures;
#[cfg(test)]
mod known_ids;
#[cfg(test)]
mod new_ids;
#[cfg(test)]
mod places;
