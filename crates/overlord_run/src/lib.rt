//! The top call of the program, over a host and a source.
#![tactic(auto)]

mod commands;
mod deciding;
mod load_commands;
mod loading;
mod status;
mod top;
mod visible;

pub use deciding::Overlord;
pub use loading::commands_make_stores_of_lines;
pub use status::{Limits, Status};
pub use top::{overlord, overlord_within};
