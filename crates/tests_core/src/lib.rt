//! The tests of the core: commands that are carried out on a book in memory.
//!
//! What the built program shows by lines and replies is tested there, by the scripts in tests/.
#![tactic(auto)]

#[cfg(test)]
mod acting;
#[cfg(test)]
mod commands;
#[cfg(test)]
mod listings;
#[cfg(test)]
mod shows;
#[cfg(test)]
mod supervised;
