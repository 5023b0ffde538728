use crate::items::Items;
use crate::kinds::{LockKind, SeqState, Table, TaskStatus};
use crate::rows::Offset;
use iv_span::Span;
use seg_names::{Name, SegId, TaskId};

/// A task as it is shown.
#[derive(Drop)]
pub struct TaskLine {
    /// Its group.
    pub group: TaskId,
    /// Its priority; the greater goes before.
    pub priority: u32,
    /// The source that it works on.
    pub source: Name,
    /// Where it stands.
    pub status: TaskStatus,
    /// Its id.
    pub task: TaskId,
}

/// A lock as it is shown.
#[derive(Drop)]
pub struct LockLine {
    /// The group whose tasks may join it.
    pub group: TaskId,
    /// Its number.
    pub lock: u64,
    /// The tasks that hold it, in order of joining.
    pub members: Items<TaskId>,
    /// The priority of the task that it was made for.
    pub priority: u32,
    /// Whether it was taken away.
    pub revoked: bool,
    /// The source that it locks.
    pub source: Name,
    /// What of the source it locks.
    pub span: Span,
    /// Its type.
    pub lock_kind: LockKind,
    /// The version of what is published under it, an instant; 0 for an appending lock.
    pub version: i64,
}

/// A stored offset as it is shown.
#[derive(Drop)]
pub struct OffsetLine {
    /// The first offset that isn't published yet.
    pub offset: u64,
    /// The partition's number, from 0.
    pub partition: u32,
    /// The stream.
    pub stream: Name,
}

/// A sequence as it is shown.
#[derive(Drop)]
pub struct SequenceLine {
    /// For each partition the offset before which it ends; empty until it is closed.
    pub ends: Items<Offset>,
    /// Its name, which is the group of its tasks.
    pub name: TaskId,
    /// For each partition the first offset that it reads.
    pub starts: Items<Offset>,
    /// Where it stands.
    pub state: SeqState,
}

/// A maximal span in which one chunk is visible.
#[derive(Drop)]
pub struct TimelinePart {
    /// The span.
    pub span: Span,
    /// The chunk's version, an instant.
    pub version: i64,
    /// The chunk's used ids by part, without tombstones.
    pub ids: Items<SegId>,
}

/// A maximal span with the same roots.
#[derive(Drop)]
pub struct ContentsPart {
    /// The span.
    pub span: Span,
    /// The roots, in id order.
    pub roots: Items<SegId>,
}

/// Why a command is refused.
#[derive(Drop)]
pub enum Refusal {
    /// The line is no command.
    BadCommand,
    /// The line has more than 1,048,576 bytes.
    LineTooLong,
    /// No task has the id.
    TaskUnknown,
    /// A task has the id.
    TaskExists,
    /// The task has another status.
    TaskNotRunning {
        /// The status that it has.
        status: TaskStatus,
    },
    /// The task has ended otherwise.
    TaskEnded {
        /// The status that it ended with.
        status: TaskStatus,
    },
    /// The task is a member of a revoked lock.
    LockRevoked {
        /// The lock's number.
        by: u64,
    },
    /// A lock is in the way.
    LockConflict {
        /// The lock's number.
        by: u64,
    },
    /// The task has no lock that contains the span.
    LockMissing {
        /// The span.
        span: Span,
    },
    /// The last version is the last instant.
    ClockEnd,
    /// The table would have too many rows, or its number would be too great.
    TableFull {
        /// The table.
        table: Table,
    },
    /// A row of a greater version overlaps the chunk at the instant.
    ChunkCut {
        /// The row's id.
        id: SegId,
    },
    /// No bucket that has the instant is free.
    NoBucket {
        /// The instant.
        at: i64,
    },
    /// The id of that sequence was allocated otherwise.
    SequenceMismatch {
        /// The id.
        id: SegId,
    },
    /// The id is no root pending of a lock of the task.
    NotAllocated {
        /// The id.
        id: SegId,
    },
    /// The spans overlap, or the ids are not whole sets of them.
    BadSpan {
        /// The first such span.
        span: Span,
    },
    /// The id hasn't its lock's version.
    WrongVersion {
        /// The id.
        id: SegId,
    },
    /// A chunk of that version overlaps the span.
    VersionUsed {
        /// The span.
        span: Span,
    },
    /// A pending overlaps a span.
    PendingOverlap {
        /// The pending's id.
        id: SegId,
    },
    /// An id that would be copied overlaps a span and doesn't lie within it.
    Granularity {
        /// The id.
        id: SegId,
    },
    /// A lock overlaps the span.
    DropLocked {
        /// The lock's number.
        by: u64,
    },
    /// A used segment overlaps the span and doesn't lie within it.
    DropPartial {
        /// The segment's id.
        id: SegId,
    },
    /// The range doesn't start at the stored offset.
    OffsetMismatch {
        /// The partition's number, from 0.
        partition: u32,
        /// The stored offset.
        stored: u64,
    },
    /// The partition's range or offset is not one of the sequence, or ends below its start.
    BadRange {
        /// The partition's number, from 0.
        partition: u32,
    },
    /// The ranges aren't those of the sequence whose turn it is.
    RangeNotAssigned {
        /// The source.
        source: Name,
    },
    /// The source has a supervisor.
    SupervisorExists {
        /// The source.
        source: Name,
    },
    /// The sequence has another state.
    SequenceState {
        /// The state that it has; there is no sequence where it is `None`.
        state: Option<SeqState>,
    },
}

/// The answer to a command.
#[derive(Drop)]
pub enum Reply {
    /// The task waits.
    Submit {
        /// The status that it has.
        status: TaskStatus,
        /// Its id.
        task: TaskId,
    },
    /// Waiting tasks were looked at.
    Manage {
        /// The tasks that run since now, in submit order.
        running: Items<TaskId>,
        /// The tasks that still wait, in submit order.
        waiting: Items<TaskId>,
    },
    /// The task has a lock.
    Lock {
        /// The lock's number.
        lock: u64,
        /// The numbers of the locks that were revoked for it, ascending.
        revoked: Items<u64>,
        /// What the lock covers.
        span: Span,
        /// The lock's version, an instant.
        version: i64,
    },
    /// The task isn't a member of the lock.
    Unlock {
        /// Whether it was a member.
        left: bool,
    },
    /// An id is allocated.
    Allocate {
        /// The id.
        id: SegId,
        /// The number of its lock.
        lock: u64,
        /// The numbers of the locks that were revoked for that lock, ascending.
        revoked: Items<u64>,
    },
    /// The ids are published beside what is there.
    Append {
        /// The publication's commit number.
        commit: u64,
    },
    /// The ids are published in place of all that the spans had.
    Insert {
        /// The publication's commit number.
        commit: u64,
    },
    /// The ids are published in place of what the spans had when they were locked.
    Replace {
        /// The publication's commit number.
        commit: u64,
    },
    /// The segments within the span are unused.
    Drop {
        /// The publication's commit number.
        commit: u64,
    },
    /// The offsets are stored in place of the stream's.
    Reset {
        /// The publication's commit number.
        commit: u64,
    },
    /// What a replacement has to read.
    ToReplace {
        /// The ids, in order.
        ids: Items<SegId>,
    },
    /// The task has ended.
    End {
        /// The status that it ended with.
        status: TaskStatus,
        /// Its id.
        task: TaskId,
    },
    /// The source has a supervisor.
    Supervise {
        /// The source.
        source: Name,
    },
    /// The supervisors looked at the clock.
    Tick {
        /// The names of the sequences that are abandoned now.
        abandoned: Items<TaskId>,
        /// The names of the sequences that are opened now.
        opened: Items<TaskId>,
        /// The names of the sequences that are paused now.
        paused: Items<TaskId>,
    },
    /// What the replica is told of its sequence.
    Paused {
        /// The sequence's ends, where it is closed; else empty.
        ends: Items<Offset>,
        /// Where the sequence stands.
        state: SeqState,
    },
    /// What the replica is told of its sequence.
    Checkpoint {
        /// The sequence's ends, where it is closed; else empty.
        ends: Items<Offset>,
        /// Where the sequence stands.
        state: SeqState,
    },
    /// The tasks are shown.
    Tasks {
        /// The tasks, in submit order.
        tasks: Items<TaskLine>,
    },
    /// The locks are shown.
    Locks {
        /// The locks, by number.
        locks: Items<LockLine>,
    },
    /// Which chunk is visible where.
    Timeline {
        /// The maximal spans with one visible chunk each, ascending.
        parts: Items<TimelinePart>,
        /// The source.
        source: Name,
    },
    /// Which roots are visible where.
    Contents {
        /// The maximal spans with the same roots, ascending.
        parts: Items<ContentsPart>,
        /// The source.
        source: Name,
    },
    /// The stored offsets are shown.
    Offsets {
        /// The offsets, by stream and partition.
        offsets: Items<OffsetLine>,
        /// The source.
        source: Name,
    },
    /// The supervisor's sequences are shown.
    Sequences {
        /// The sequences, in row order.
        sequences: Items<SequenceLine>,
        /// The source.
        source: Name,
    },
    /// The command changes nothing, and this is why.
    Refused(Refusal),
}
