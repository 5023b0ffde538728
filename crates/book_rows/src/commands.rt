use crate::items::Items;
use crate::kinds::{LockKind, TaskKind, TaskStatus};
use crate::rows::{Offset, Ranges, Want};
use iv_span::Span;
use iv_time::Granularity;
use seg_names::{Name, SegId, TaskId};

/// What the core is asked or told.
#[derive(Drop)]
pub enum Command {
    /// Adds a task, which waits for its locks.
    Submit {
        /// Its id, which is to be new.
        task: TaskId,
        /// Its group.
        group: TaskId,
        /// The source that it works on.
        source: Name,
        /// What it does.
        kind: TaskKind,
        /// Its priority; the greater goes before.
        priority: u32,
        /// The locks that it asks for before it runs.
        locks: Items<Want>,
    },
    /// Starts the waiting tasks that get all their locks.
    Manage {
        /// The moment, an instant.
        now: i64,
    },
    /// Asks for a lock.
    Lock {
        /// The task that asks.
        task: TaskId,
        /// The type of the lock.
        lock_kind: LockKind,
        /// What it is to cover.
        span: Span,
        /// The moment, an instant.
        now: i64,
    },
    /// Leaves a lock.
    Unlock {
        /// The task that leaves it.
        task: TaskId,
        /// The lock's number.
        lock: u64,
    },
    /// Asks for the id of a new segment.
    Allocate {
        /// The task that asks.
        task: TaskId,
        /// The type of the lock that it is allocated under.
        lock_kind: LockKind,
        /// The sequence of ids that it goes on.
        sequence: Name,
        /// The id before it in the sequence; none for the first.
        previous: Option<SegId>,
        /// The instant that its span is to have.
        at: i64,
        /// The coarsest granularity that a new span may have.
        granularity: Granularity,
        /// The moment, an instant.
        now: i64,
    },
    /// Publishes allocated ids beside what is there.
    Append {
        /// The task that publishes.
        task: TaskId,
        /// The ids.
        ids: Items<SegId>,
        /// What was read of a stream; none leaves the offsets.
        ranges: Option<Ranges>,
    },
    /// Publishes ids in place of all that the spans have.
    Insert {
        /// The task that publishes.
        task: TaskId,
        /// The spans.
        spans: Items<Span>,
        /// The ids that they are to have.
        ids: Items<SegId>,
        /// The ids of the tombstones that they are to have.
        tombstones: Items<SegId>,
        /// What was read of a stream; none leaves the offsets.
        ranges: Option<Ranges>,
    },
    /// Publishes ids in place of what the spans had when they were locked.
    Replace {
        /// The task that publishes.
        task: TaskId,
        /// The spans.
        spans: Items<Span>,
        /// The ids that they are to have.
        ids: Items<SegId>,
        /// The ids of the tombstones that they are to have.
        tombstones: Items<SegId>,
        /// What was read of a stream; none leaves the offsets.
        ranges: Option<Ranges>,
    },
    /// Ends a task.
    End {
        /// The task.
        task: TaskId,
        /// The status that it ends with.
        status: TaskStatus,
    },
    /// Marks all segments within the span as unused.
    Drop {
        /// Their source.
        source: Name,
        /// The span.
        span: Span,
    },
    /// Replaces the stored offsets of a stream.
    Reset {
        /// The source that reads it.
        source: Name,
        /// The stream.
        stream: Name,
        /// The offsets to be stored.
        offsets: Items<Offset>,
    },
    /// Makes a supervisor of a stream.
    Supervise {
        /// The source that it fills.
        source: Name,
        /// The stream that it reads.
        stream: Name,
        /// How many partitions the stream has.
        partitions: u32,
        /// How many groups the partitions are dealt to.
        task_count: u32,
        /// How many tasks read each sequence.
        replicas: u32,
        /// How long a sequence reads, in milliseconds.
        task_duration: i64,
        /// How long a closed sequence has to publish, in milliseconds.
        completion_timeout: i64,
    },
    /// Lets the supervisors look at the clock.
    Tick {
        /// The moment, an instant.
        now: i64,
    },
    /// Tells how far a replica of a paused sequence has read.
    Paused {
        /// The replica.
        task: TaskId,
        /// For each partition the offset before which it stands.
        offsets: Items<Offset>,
    },
    /// Tells how far a replica has read, and pauses its sequence.
    Checkpoint {
        /// The replica.
        task: TaskId,
        /// For each partition the offset before which it stands.
        offsets: Items<Offset>,
    },
    /// Asks which ids a replacement of the span has to read.
    ToReplace {
        /// The task that is to replace it.
        task: TaskId,
        /// The span.
        span: Span,
    },
    /// Asks what the book has.
    Show {
        /// What of it.
        what: What,
    },
}

/// What of the book is shown. The last four are of one source.
#[derive(Drop)]
pub enum What {
    /// The tasks.
    Tasks,
    /// The locks.
    Locks,
    /// Which chunk is visible where.
    Timeline(Name),
    /// Which roots are visible where.
    Contents(Name),
    /// The stored offsets.
    Offsets(Name),
    /// The sequences of the supervisor.
    Sequences(Name),
}
