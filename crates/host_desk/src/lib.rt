//! What the program sees of the outside: four files, bytes that it says, bytes that it reads.
#![tactic(auto)]

mod call;
mod desk;
mod files;
mod memory;
mod source;
mod stop;

pub use desk::{Failed, Host, Source};
pub use memory::MemHost;
pub use source::MemSource;
pub use stop::{Image, Pick};

/// The one error of a call that only lacked memory.
pub type OutOfMemory = std::alloc::AllocError;
