//! Worked cases of books that are unsound: for the clauses of each rule books that break them, with the rule and the row.
//!
//! Each function is empty. Its contract is a case, in specs/, on the definitions of `laws_unsound`; it is proved by
//! computing both sides.
#![tactic(auto)]

pub mod books;
pub mod chunks;
pub mod history;
pub mod keys;
pub mod limits;
