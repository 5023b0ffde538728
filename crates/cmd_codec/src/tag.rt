//! Tags of commands.

/// Which values follow a tag. An `insert` or `replace` with tombstones has a tag of its own.
#[derive(Clone, Copy)]
pub enum Tag {
    Submit,
    Manage,
    Lock,
    Unlock,
    Allocate,
    Append,
    Insert,
    Replace,
    End,
    Drop,
    Reset,
    Supervise,
    Tick,
    Paused,
    Checkpoint,
    MarkedInsert,
    MarkedReplace,
}
