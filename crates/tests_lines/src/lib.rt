//! The tests of what stands around the rules: lines of input, commands as lines and as records, replies, and rows.
//!
//! Public calls on their happy paths, and what no contract says. A crate with tests is proved twice, so tests stand in
//! crates of their own, by what they stand on.
#![tactic(auto)]

#[cfg(test)]
mod lines;
#[cfg(test)]
mod records;
#[cfg(test)]
mod replies;
#[cfg(test)]
mod rows;
#[cfg(test)]
mod words;
