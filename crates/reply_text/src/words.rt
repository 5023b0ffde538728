//! The words for kinds, states and tables.
ghost use Rattle.std.specs.Prelude.{◌≡◌};
ghost use Rattle.reply_text.specs.Spelling.{status_word, kind_word, state_word, state_or_none, table_word};

use book_rows::{LockKind, SeqState, Table, TaskStatus};

/// Where a task stands.
pub fn of_status(status: TaskStatus) -> &'static str
    ensures { result.now ≡ status_word status }
{
    match status {
        TaskStatus::Waiting => "WAITING",
        TaskStatus::Running => "RUNNING",
        TaskStatus::Success => "SUCCESS",
        TaskStatus::Failed => "FAILED",
    }
}

/// The type of a lock.
pub fn of_kind(kind: LockKind) -> &'static str
    ensures { result.now ≡ kind_word kind }
{
    match kind {
        LockKind::Exclusive => "EXCLUSIVE",
        LockKind::Shared => "SHARED",
        LockKind::Append => "APPEND",
        LockKind::Replace => "REPLACE",
    }
}

/// The state of a sequence.
pub fn of_state(state: SeqState) -> &'static str
    ensures { result.now ≡ state_word state }
{
    match state {
        SeqState::Reading => "READING",
        SeqState::Paused => "PAUSED",
        SeqState::Closed => "CLOSED",
        SeqState::Published => "PUBLISHED",
        SeqState::Abandoned => "ABANDONED",
    }
}

/// The state of a sequence, or the word for none where there is no sequence.
pub fn of_state_or_none(state: Option<SeqState>) -> &'static str
    ensures { result.now ≡ state_or_none state }
{
    match state {
        Some(state) => of_state(state),
        None => "NONE",
    }
}

/// What is full.
pub fn of_table(table: Table) -> &'static str
    ensures { result.now ≡ table_word table }
{
    match table {
        Table::Tasks => "tasks",
        Table::Locks => "locks",
        Table::Numbers => "numbers",
        Table::Chunks => "chunks",
        Table::Parts => "parts",
        Table::Segments => "segments",
        Table::Pendings => "pendings",
        Table::Upgrades => "upgrades",
        Table::Publications => "publications",
        Table::Offsets => "offsets",
        Table::Supervisors => "supervisors",
        Table::Sequences => "sequences",
    }
}
