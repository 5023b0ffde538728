/// What a task does; its kind gives its default priority.
#[derive(Clone, Copy, Debug, PartialEq, Eq)]
pub enum TaskKind {
    /// It reads a stream: 75.
    Realtime,
    /// It reads a batch: 50.
    Batch,
    /// It writes what is there anew: 25.
    Compaction,
    /// Anything else: 0.
    Other,
}

/// The type of a lock.
#[derive(Clone, Copy, Debug, PartialEq, Eq)]
pub enum LockKind {
    /// It goes with no lock that overlaps it.
    Exclusive,
    /// It goes with other shared ones.
    Shared,
    /// It goes with other appending ones, and with a replacing one that contains it.
    Append,
    /// It goes with the appending ones that it contains.
    Replace,
}

/// Where a task stands.
#[derive(Clone, Copy, Debug, PartialEq, Eq)]
pub enum TaskStatus {
    /// It waits for its locks.
    Waiting,
    /// It has its locks and runs.
    Running,
    /// It has ended well.
    Success,
    /// It has ended otherwise.
    Failed,
}

/// The state of a supervisor's sequence. The first three are unpublished.
#[derive(Clone, Copy, Debug, PartialEq, Eq)]
pub enum SeqState {
    /// Its replicas read.
    Reading,
    /// Its replicas are asked how far they have read.
    Paused,
    /// Its ends are settled.
    Closed,
    /// What it read is published.
    Published,
    /// It was given up.
    Abandoned,
}

/// What made a publication.
#[derive(Clone, Copy, Debug, PartialEq, Eq)]
pub enum PubKind {
    /// `append`.
    Append,
    /// `insert`.
    Over,
    /// `replace`.
    Replace,
    /// `drop`.
    Drop,
    /// `reset`.
    Reset,
}

/// What has a limit in the book.
#[derive(Clone, Copy, Debug, PartialEq, Eq)]
pub enum Table {
    /// The tasks.
    Tasks,
    /// The locks.
    Locks,
    /// A lock's number.
    Numbers,
    /// The chunks.
    Chunks,
    /// A chunk's next part.
    Parts,
    /// The segments.
    Segments,
    /// The ids that wait to be published.
    Pendings,
    /// What replacements have to carry.
    Upgrades,
    /// The publications.
    Publications,
    /// The stored offsets.
    Offsets,
    /// The supervisors.
    Supervisors,
    /// The sequences.
    Sequences,
}
