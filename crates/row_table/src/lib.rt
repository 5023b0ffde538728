//! Tables of rows in the order in which they were added, found by their keys.
//!
//! A contract sees a table as the plain list of its rows: look-ups are searches of the list, and
//! changes are what they make of it. No contract names a key or the index.
//!
//! A look-up costs the logarithm of the table, and a step for each key that lies in the query's
//! ranges. `remove_all` and `change_all` look up again for each row that passes, each time up to the
//! first that they meet.
#![tactic(auto)]

mod changes;
mod list;
mod lists;
mod pushes;
mod rows;
mod table;
mod updates;

pub use changes::Change;
pub use list::RowList;
use std::alloc::AllocError;
pub use table::RowTable;
pub use updates::Update;

/// Want of memory.
pub type OutOfMemory = AllocError;
