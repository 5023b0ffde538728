//! Whether a book is sound: the first rule that it breaks, and the least row that breaks it.
#![tactic(auto)]

mod faults;
mod row_rules;
mod shape;

pub use faults::CheckFault;
pub use row_rules::check_rows;
