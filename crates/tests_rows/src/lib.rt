//! The tables of rows at a concrete type: rows that are found by a name, by a span, and by a group
//! that they may have. Digests of names, and of groups, are made to collide.
#![tactic(auto)]

mod marks;

pub use marks::{Grouped, Joining, Leaving, Mark, Named, Over};

#[cfg(test)]
mod lists;
#[cfg(test)]
mod tables;
#[cfg(test)]
mod without_memory;
