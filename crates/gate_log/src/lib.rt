//! A log of records in one file of a host. A stop at any moment leaves all of its records, or all but the last.
//!
//! A file begins with a gate, the name `OVERLORD`, a format number, a generation and a snapshot. Records follow, each
//! behind a gate of its own. A gate is opened only once all that it guards is on the disk.
#![tactic(auto)]

mod fault;
mod frame;
mod header;
mod log;
mod making;
mod numbers;
mod opening;
mod reading;
mod through;

pub use fault::{LogFault, OutOfMemory};
pub use frame::{Frame, make_frame};
pub use log::GateLog;
pub use making::make_log;
pub use opening::open_log;
