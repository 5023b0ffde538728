//! The tests of snapshots.
//!
//! Public calls on their happy paths, and what no contract says.
#![tactic(auto)]

#[cfg(test)]
mod snapshots;
