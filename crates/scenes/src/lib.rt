//! Scenes for worked cases: short names for sources, tasks, spans, ids, commands, replies and rows.
//!
//! All of it is in specs/. `Script` has the words of every case, `Asking` those of cases on tasks and locks, `Publishing`
//! those of cases on publications and on what is shown.
#![tactic(auto)]
