//! The deciding core: the book, and what each command makes of it.
//!
//! It decides `submit`, `manage`, `lock`, `unlock`, `allocate`, `append`, `insert`, `replace`, `end`,
//! `drop`, `reset`, `supervise`, `tick`, `paused` and `checkpoint`, and answers `to_replace` and `show`.
#![tactic(auto)]

mod acting;
mod publishing;
mod resets;
mod rows_shown;
mod shows;
mod supervising;
mod ticking;

pub use acting::Overlord;
pub use book_core::{OutOfMemory, Outcome};
