//! The tests of the host and the source in memory, and of the log that stands on a host.
//!
//! Public calls on their happy paths, and what no contract says. A crate with tests is proved twice, so tests stand in
//! crates of their own, by what they stand on.
#![tactic(auto)]

#[cfg(test)]
mod fixtures;
#[cfg(test)]
mod hosts;
#[cfg(test)]
mod logs;
