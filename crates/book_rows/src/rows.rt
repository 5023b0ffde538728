use crate::items::Items;
use crate::kinds::{LockKind, PubKind, SeqState, TaskKind, TaskStatus};
use iv_span::Span;
use seg_names::{Name, SegId, TaskId};

/// A lock that a task asks for.
#[derive(Clone, Copy, Debug, PartialEq, Eq)]
pub struct Want {
    /// The type of the lock.
    pub lock_kind: LockKind,
    /// What it is to cover.
    pub span: Span,
}

/// A task.
#[derive(Drop)]
pub struct TaskRow {
    /// Its id, which no other task has.
    pub task: TaskId,
    /// Its group, whose tasks hold their locks together.
    pub group: TaskId,
    /// The source that it works on.
    pub source: Name,
    /// What it does.
    pub kind: TaskKind,
    /// The greater goes before: a lock of a lower priority is revoked where it is in the way.
    pub priority: u32,
    /// Where it stands.
    pub status: TaskStatus,
    /// The locks that it asks for before it runs.
    pub wants: Items<Want>,
}

/// A posse: a lock with the tasks that hold it together.
#[derive(Drop)]
pub struct PosseRow {
    /// The lock's number, from 1; a later lock has a greater one.
    pub number: u64,
    /// Its type.
    pub lock_kind: LockKind,
    /// The group whose tasks may join it.
    pub group: TaskId,
    /// The source that it locks.
    pub source: Name,
    /// What of the source it locks.
    pub span: Span,
    /// The version of what is published under it, an instant; 0 for an appending lock.
    pub version: i64,
    /// The priority of the task that it was made for.
    pub priority: u32,
    /// The tasks that hold it, in order of joining.
    pub members: Items<TaskId>,
    /// Whether it was taken away; nothing is published under it from then on.
    pub revoked: bool,
    /// How many publications there were when it was made.
    pub since: u64,
}

/// A chunk: the segments of one source, span and version.
#[derive(Drop)]
pub struct ChunkRow {
    /// Its source.
    pub source: Name,
    /// Its span.
    pub span: Span,
    /// Its version, an instant.
    pub version: i64,
    /// The parts from 0 to below this one are a whole set, which covers what older chunks have.
    pub core: u32,
    /// The part that is given next.
    pub next: u32,
}

/// A segment.
#[derive(Drop)]
pub struct SegmentRow {
    /// Its id.
    pub id: SegId,
    /// Whether it is used, so that it may be shown.
    pub used: bool,
    /// The id that it is a copy of, or its own.
    pub root: SegId,
    /// The commit number of the publication that made the row.
    pub commit: u64,
    /// Whether it covers its chunk with nothing.
    pub tombstone: bool,
}

/// An id that is allocated and not published yet.
#[derive(Drop)]
pub struct PendingRow {
    /// The id.
    pub id: SegId,
    /// The id that it is a copy of, or its own.
    pub root: SegId,
    /// The number of the lock that it was allocated under.
    pub posse: u64,
    /// The sequence of ids that it belongs to; within one an allocation can be repeated.
    pub sequence: Name,
    /// The id before it in the sequence; none for the first.
    pub previous: Option<SegId>,
}

/// A root that was appended under a replacing lock, and that its replacement has to carry.
#[derive(Drop)]
pub struct UpgradeRow {
    /// The number of the replacing lock.
    pub posse: u64,
    /// The root.
    pub root: SegId,
}

/// A span of a publication.
#[derive(Clone, Copy, Debug, PartialEq, Eq)]
pub struct SpanSince {
    /// The span.
    pub span: Span,
    /// The number of publications when its lock was made, where the publication replaces; else 0.
    pub since: u64,
}

/// What was read of a partition.
#[derive(Clone, Copy, Debug, PartialEq, Eq)]
pub struct Range {
    /// The partition's number, from 0.
    pub partition: u32,
    /// The first offset that was read.
    pub start: u64,
    /// The offset after the last one that was read.
    pub end: u64,
}

/// What was read of a stream.
#[derive(Drop)]
pub struct Ranges {
    /// The stream.
    pub stream: Name,
    /// What was read of its partitions, by ascending partition.
    pub parts: Items<Range>,
}

/// A publication. Its place in the list of publications, from 0, is its commit number.
#[derive(Drop)]
pub struct Publication {
    /// What made it.
    pub kind: PubKind,
    /// The group of the task that published; `-` for `drop` and `reset`, which no task does.
    pub group: TaskId,
    /// Its source.
    pub source: Name,
    /// The spans that it takes away from, or replaces.
    pub spans: Items<SpanSince>,
    /// The ids that it adds.
    pub adds: Items<SegId>,
    /// Its tombstones.
    pub empties: Items<SegId>,
    /// What was read of a stream; none where the publication has no offsets.
    pub ranges: Option<Ranges>,
}

/// An offset that is stored of a source's stream and partition.
#[derive(Drop)]
pub struct OffsetRow {
    /// The source.
    pub source: Name,
    /// The stream that it reads.
    pub stream: Name,
    /// The partition's number, from 0.
    pub partition: u32,
    /// The first offset that isn't published yet.
    pub offset: u64,
}

/// A supervisor of a stream.
#[derive(Drop)]
pub struct SupervisorRow {
    /// The source that it fills, which has no other supervisor.
    pub source: Name,
    /// The stream that it reads.
    pub stream: Name,
    /// How many partitions the stream has.
    pub partitions: u32,
    /// How many groups the partitions are dealt to.
    pub task_count: u32,
    /// How many tasks read each sequence.
    pub replicas: u32,
    /// How long a sequence reads, in milliseconds.
    pub duration: i64,
    /// How long a closed sequence has to publish, in milliseconds.
    pub timeout: i64,
}

/// A partition and an offset in it.
#[derive(Clone, Copy, Debug, PartialEq, Eq)]
pub struct Offset {
    /// The partition's number, from 0.
    pub partition: u32,
    /// The offset.
    pub offset: u64,
}

/// How far a replica has read.
#[derive(Drop)]
pub struct Report {
    /// The replica.
    pub task: TaskId,
    /// For each partition the greatest offset that it told.
    pub offsets: Items<Offset>,
}

/// A sequence of a supervisor's group.
#[derive(Drop)]
pub struct SequenceRow {
    /// The supervisor's source.
    pub source: Name,
    /// The group's number, from 0.
    pub group: u32,
    /// The sequence's number in its group, from 0.
    pub index: u32,
    /// Where it stands.
    pub state: SeqState,
    /// The instant when it was opened.
    pub opened: i64,
    /// The instant when it was closed; 0 until then.
    pub closed: i64,
    /// For each partition of the group the first offset that it reads.
    pub starts: Items<Offset>,
    /// For each partition of the group the offset before which it ends; empty until it is closed.
    pub ends: Items<Offset>,
    /// Its replicas that haven't ended.
    pub live: Items<TaskId>,
    /// How far its replicas have read.
    pub reports: Items<Report>,
}

/// The book: everything that the core knows.
#[derive(Drop)]
pub struct Book {
    /// The greatest moment so far, an instant.
    pub clock: i64,
    /// The last version that was given to a lock, an instant.
    pub last: i64,
    /// The number of the next lock.
    pub next_lock: u64,
    /// The tasks, in submit order.
    pub tasks: Items<TaskRow>,
    /// The locks, by ascending number.
    pub posses: Items<PosseRow>,
    /// The chunks, in the order in which they were made.
    pub chunks: Items<ChunkRow>,
    /// The segments, in the order in which they were published.
    pub segments: Items<SegmentRow>,
    /// The ids that wait to be published, in the order in which they were allocated.
    pub pendings: Items<PendingRow>,
    /// What replacements have to carry, in the order in which it was appended.
    pub upgrades: Items<UpgradeRow>,
    /// The publications, in the order of their commit numbers.
    pub publications: Items<Publication>,
    /// The stored offsets, by source, stream and partition.
    pub offsets: Items<OffsetRow>,
    /// The supervisors, in the order in which they were made.
    pub supervisors: Items<SupervisorRow>,
    /// The sequences, in the order in which they were opened.
    pub sequences: Items<SequenceRow>,
}
