//! The lockbox: requests for locks, decided and done, and locks that are left.
#![tactic(auto)]

mod deciding;
mod fault;
mod granting;
mod kinds;
mod numbers;
mod searches;
mod unlocking;

pub use book_rows::{Counters, Granted, GrantedLock};
pub use deciding::{decide, decide_lock};
pub use fault::LockFault;
use std::alloc::AllocError;
pub use unlocking::{apply, release, release_all};

/// Want of memory.
pub type OutOfMemory = AllocError;
