//! Laws of revocation: a task whose lock was revoked commits nothing under it.
//!
//! Each function is empty. Its contract is a law, in specs/, on the definitions of `book_rows`; so
//! the proof of the function is a proof of the law.
#![tactic(auto)]

pub mod commits;
pub mod ids;
pub mod numbers;
pub mod pendings;
pub mod refusals;
