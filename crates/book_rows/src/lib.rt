//! The rows of the book, the commands that change it and the replies to them.
//!
//! The definitions of the rules are in specs/, over these rows as plain lists and numbers. Instants
//! are milliseconds from the epoch, and durations are milliseconds.
#![tactic(auto)]

mod answers;
mod command_twins;
mod commands;
mod items;
mod kinds;
mod limits;
mod refusals;
mod replies;
mod reply_twins;
mod row_twins;
mod rows;

pub use answers::{
    Clear, Copies, Counters, Granted, GrantedLock, NewPending, Place, Reported, Ticked,
};
pub use commands::{Command, What};
pub use items::{Items, Twin};
pub use kinds::{LockKind, PubKind, SeqState, Table, TaskKind, TaskStatus};
pub use limits::{
    ITEM_LIMIT, NUMBER_LIMIT, OFFSET_LIMIT, PART_LIMIT, PARTITION_LIMIT, PRIORITY_LIMIT,
    REPLICA_LIMIT, ROW_LIMIT, WANT_LIMIT,
};
pub use replies::{
    ContentsPart, LockLine, OffsetLine, Refusal, Reply, SequenceLine, TaskLine, TimelinePart,
};
pub use rows::{
    Book, ChunkRow, Offset, OffsetRow, PendingRow, PosseRow, Publication, Range, Ranges, Report,
    SegmentRow, SequenceRow, SpanSince, SupervisorRow, TaskRow, UpgradeRow, Want,
};
use std::alloc::AllocError;

/// Want of memory.
pub type OutOfMemory = AllocError;
