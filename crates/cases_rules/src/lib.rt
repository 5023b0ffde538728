//! Worked cases of the rules: what the core answers to whole lists of commands, from the empty book.
//!
//! Each function is empty. Its contract is a case, in specs/, that the definitions of `book_rows`
//! compute; so the proof of the function is a run of the definitions.
#![tactic(auto)]

pub mod allocation;
pub mod appends;
pub mod asking;
pub mod bounds;
pub mod broken_books;
pub mod chunks;
pub mod compatible;
pub mod dropping;
pub mod ending;
pub mod form_lists;
pub mod form_texts;
pub mod forms;
pub mod full_rows;
pub mod full_tables;
pub mod granting;
pub mod insert_faults;
pub mod inserted;
pub mod inserts;
pub mod leaving;
pub mod limits;
pub mod locks;
pub mod managing;
pub mod nothing;
pub mod places;
pub mod ranges;
pub mod replace_refusals;
pub mod replacements;
pub mod replacing;
pub mod replica_ends;
pub mod reports;
pub mod requests;
pub mod sequences;
pub mod shown;
pub mod sound_books;
pub mod streams;
pub mod submitting;
pub mod supervisors;
pub mod tasks;
pub mod tombstones;
pub mod turns;
pub mod versions;
pub mod well_formed;
