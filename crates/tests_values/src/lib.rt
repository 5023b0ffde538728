//! The tests of the values: instants, spans, fields of records, names and ids.
//!
//! Public calls on their happy paths, and what no contract says. A crate with tests is proved twice, so tests stand in
//! crates of their own, by what they stand on.
#![tactic(auto)]

#[cfg(test)]
mod fields;
#[cfg(test)]
mod instants;
#[cfg(test)]
mod names;
#[cfg(test)]
mod spans;
