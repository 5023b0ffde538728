//! Locks in conflict, and pendings and upgrade rows without the lock or the root that they refer to: the least row.
#![tactic(auto)]

pub mod conflicts;
pub mod rooted;
