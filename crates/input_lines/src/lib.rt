//! The lines of a source, one after another.
#![tactic(auto)]

mod buffer;
mod found;
mod reader;

pub use buffer::LINE_LIMIT;
pub use found::{Found, ReadFault};
pub use reader::LineReader;
