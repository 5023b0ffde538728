//! The tests of the table of pendings and upgrade rows.
//!
//! Public calls on their happy paths, and what no contract says.
#![tactic(auto)]

#[cfg(test)]
mod pendings;
