//! Limits of rows: the least row of a book that is outside one.
#![tactic(auto)]

pub mod limit_rows;
pub mod limits;
pub mod values;
