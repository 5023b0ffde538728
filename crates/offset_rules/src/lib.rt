//! What publications read of streams, and whether stored offsets are where it ends.
#![tactic(auto)]

pub mod marks;
pub mod tiled;
