//! The tests of the table of locks and of the lockbox.
//!
//! Public calls on their happy paths, and what no contract says.
#![tactic(auto)]

#[cfg(test)]
mod fixtures;
#[cfg(test)]
mod locks;
#[cfg(test)]
mod posses;
