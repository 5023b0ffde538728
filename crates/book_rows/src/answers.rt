//! What the calls that decide parts of a command answer.

use crate::items::Items;
use crate::kinds::SeqState;
use crate::rows::{Offset, PendingRow, PosseRow, SegmentRow, TaskRow};
use iv_span::Span;
use seg_names::{Name, SegId, TaskId};

/// What a request for a lock is decided with.
#[derive(Clone, Copy, Debug, PartialEq, Eq)]
pub struct Counters {
    /// The command's moment, an instant.
    pub clock: i64,
    /// The last version that was given to a lock, an instant.
    pub last: i64,
    /// The number of the next lock.
    pub next_lock: u64,
    /// How many publications there are.
    pub since: u64,
}

/// What granted requests make of the locks.
#[derive(Drop)]
pub struct Granted {
    /// The number of the lock of each request, in their order.
    pub locks: Items<u64>,
    /// The numbers of the locks that were there and that the task joins.
    pub joins: Items<u64>,
    /// The new locks, by ascending number.
    pub rows: Items<PosseRow>,
    /// The numbers of the locks that are revoked, ascending.
    pub revoked: Items<u64>,
    /// The counters after it.
    pub after: Counters,
}

/// A lock that is granted to one request: one that was there and that the task joins, or a new one.
#[derive(Drop)]
pub struct GrantedLock {
    /// Its number.
    pub number: u64,
    /// Its own span, which contains the one that was asked for.
    pub span: Span,
    /// Its version, an instant.
    pub version: i64,
    /// What the grant makes of the locks.
    pub granted: Granted,
}

/// Whether a task holds a lock for a span.
#[derive(Clone, Copy, Debug, PartialEq, Eq)]
pub enum Clear {
    /// The number of the least lock that contains it.
    Held(u64),
    /// The number of the least revoked lock that overlaps it.
    Revoked(u64),
    /// There is none.
    Missing,
}

/// Where a new id is allocated.
#[derive(Clone, Copy, Debug, PartialEq, Eq)]
pub struct Place {
    /// Its span.
    pub span: Span,
    /// Its version, an instant; none stands for the version of the lock that will be granted.
    pub version: Option<i64>,
}

/// A root pending to be added.
#[derive(Drop)]
pub struct NewPending {
    /// Its source.
    pub source: Name,
    /// Its span.
    pub span: Span,
    /// Its version, an instant.
    pub version: i64,
    /// The number of the lock that it is allocated under.
    pub posse: u64,
    /// The sequence of ids that it belongs to.
    pub sequence: Name,
    /// The id before it in the sequence; none for the first.
    pub previous: Option<SegId>,
}

/// The copies that a replacement carries into its new chunk.
#[derive(Drop)]
pub struct Copies {
    /// Those of published roots.
    pub segments: Items<SegmentRow>,
    /// Those of roots that are pending.
    pub pendings: Items<PendingRow>,
}

/// What a tick makes of the sequences, in the order of the supervisors and their groups.
#[derive(Drop)]
pub struct Ticked {
    /// The names of the sequences that are abandoned.
    pub abandoned: Items<TaskId>,
    /// The names of the sequences that are paused.
    pub paused: Items<TaskId>,
    /// The names of the sequences that are opened.
    pub opened: Items<TaskId>,
    /// The tasks that end.
    pub ended: Items<TaskId>,
    /// The tasks to be added.
    pub submitted: Items<TaskRow>,
}

/// What a report makes of its sequence.
#[derive(Drop)]
pub struct Reported {
    /// Where the sequence stands after it.
    pub state: SeqState,
    /// Its ends, where it is closed; else empty.
    pub ends: Items<Offset>,
    /// Whether the book changes.
    pub changed: bool,
}
