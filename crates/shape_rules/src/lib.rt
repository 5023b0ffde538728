//! Keys, orders, members and ids of the rows of a book: the least row that breaks what its shape asks of them.
#![tactic(auto)]

pub mod key_rows;
pub mod members;
pub mod once;
pub mod order;
pub mod reference_rows;
pub mod roots;
