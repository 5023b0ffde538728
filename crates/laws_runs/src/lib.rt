//! Laws of stores and runs: the book that a store stands for, and every book of a run, is reached by commands, and sound;
//! what it replies to `show` is what was put; what a run says is lines.
//!
//! Each function is empty. Its contract is a law, in specs/, on the definitions of `machine_run` and
//! `overlord_rules`; so the proof of the function is a proof of the law.
#![tactic(auto)]

pub mod books;
pub mod commands;
pub mod replies;
pub mod rules;
