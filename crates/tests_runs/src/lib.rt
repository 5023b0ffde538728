//! The tests of whole runs over a host in memory: what the built program can't show, as limits below its own, calls of
//! the host that fail, and what a stop within any call leaves.
//!
//! What it can show is tested on it, by the scripts in tests/.
#![tactic(auto)]

#[cfg(test)]
mod fixtures;
#[cfg(test)]
mod runs;
#[cfg(test)]
mod stops;
#[cfg(test)]
mod switches;
