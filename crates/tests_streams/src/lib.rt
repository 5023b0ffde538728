//! The tests of the table of publications and stored offsets, and of resets on it.
//!
//! Public calls on their happy paths, and what no contract says.
#![tactic(auto)]

#[cfg(test)]
mod offsets;
#[cfg(test)]
mod publications;
