//! Laws of what is shown: why finitely many instants decide it, and that it is what the publications put there.
//!
//! Each function is empty. Its contract is a law, in specs/, on the definitions of `book_rows`; so
//! the proof of the function is a proof of the law.
#![tactic(auto)]

pub mod appended;
pub mod asking;
pub mod carrying;
pub mod deciding;
pub mod ends;
pub mod growth;
pub mod history;
pub mod printed;
pub mod waiting;
