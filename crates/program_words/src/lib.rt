//! The words of the command line, read by `clap`.
#![tactic(auto)]

mod fault;
mod form;
mod numbers;
mod reading;

pub use fault::WordsFault;
pub use form::Form;
pub use reading::read_words;
