//! The tests of the table of tasks and of their queue.
//!
//! Public calls on their happy paths, and what no contract says. A crate with tests is proved twice, so tests stand in
//! crates of their own, by what they stand on.
#![tactic(auto)]

#[cfg(test)]
mod fixtures;
#[cfg(test)]
mod queue;
#[cfg(test)]
mod tasks;
