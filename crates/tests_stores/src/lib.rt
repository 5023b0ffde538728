//! The tests of the store in a pair of files.
#![tactic(auto)]

#[cfg(test)]
mod fixtures;
#[cfg(test)]
mod stores;
