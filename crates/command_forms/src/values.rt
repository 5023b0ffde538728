//! Whether the single values of commands keep their limits.
ghost use Rattle.std.specs.Prelude.{◌≡◌, option_map};
ghost use Rattle.std.specs.List.{list_all};
ghost use Rattle.seg_names.specs.Names.{is_between, is_name, is_task_id};
ghost use Rattle.book_rows.specs.Names.{begins_with, compact_prefix, sup_prefix};
ghost use Rattle.book_rows.specs.Spans.{is_span};
ghost use Rattle.book_rows.specs.Form.{is_id, is_optional_id, is_submit_text, is_submit_byte, may_allocate};
ghost use Rattle.book_rows.specs.Kinds.{has_ended};
ghost use Rattle.iv_time.specs.Durations.{is_duration};

use book_rows::{LockKind, TaskStatus};
use iv_span::Span;
use iv_time::in_range;
use seg_names::{Name, SegId, TaskId};

/// Whether both ends are instants.
pub fn is_span(span: Span) -> bool
    ensures { result ≡ is_span span }
{
    in_range(span.start()) && in_range(span.end()) && span.start() < span.end()
}

/// Whether the instants of an id are in range. Its part always is.
pub fn is_id(id: &SegId) -> bool
    ensures { result ≡ is_id id.now }
{
    is_name(&id.source) && is_span(id.span) && in_range(id.version) && id.part <= u32::MAX
}

/// Whether it is an id, or none is there.
pub fn is_optional_id(id: Option<&SegId>) -> bool
    ensures { result ≡ is_optional_id (option_map (λ i. i.now) id.entry) }
{
    match id {
        Some(id) => is_id(id),
        None => true,
    }
}

fn is_submit_byte(byte: u8) -> bool
    ensures { result ≡ is_submit_byte byte }
{
    matches!(byte, b'a'..=b'z' | b'A'..=b'Z' | b'0'..=b'9' | b'_' | b'-' | b'.' | b':')
}

fn has_submit_bytes(text: &[u8]) -> bool
    ensures { result ≡ list_all is_submit_byte text.now }
{
    text.iter().all(|byte| is_submit_byte(*byte))
}

fn begins_as_sequence(text: &[u8]) -> bool
    ensures { result ≡ begins_with sup_prefix text.now }
{
    matches!(text, [b's', b'u', b'p', b':', ..])
}

fn begins_as_compaction(text: &[u8]) -> bool
    ensures { result ≡ begins_with compact_prefix text.now }
{
    matches!(text, [b'c', b'o', b'm', b'p', b'a', b'c', b't', b':', ..])
}

/// Whether the text may be the id or the group of a task that is submitted.
pub fn is_submit_text(text: &[u8]) -> bool
    ensures { result ≡ is_submit_text text.now }
{
    1 <= text.len()
        && text.len() <= 200
        && has_submit_bytes(text)
        && !begins_as_sequence(text)
        && !begins_as_compaction(text)
}

/// Whether the number of milliseconds is a duration.
pub fn is_duration(ms: i64) -> bool
    ensures { result ≡ is_duration ms }
{
    ms % 1_000 == 0 && 1_000 <= ms && ms <= 36_609_996_339_000
}

/// Whether the number is at least 1 and at most the other.
pub fn is_count(number: u32, most: u32) -> bool
    ensures { result ≡ is_between 1 most number }
{
    1 <= number && number <= most
}

/// Whether the status ends a task.
pub fn is_end(status: TaskStatus) -> bool
    ensures { result ≡ has_ended status }
{
    matches!(status, TaskStatus::Success | TaskStatus::Failed)
}

/// Whether ids may be asked for under the type of lock.
pub fn may_allocate(kind: LockKind) -> bool
    ensures { result ≡ may_allocate kind }
{
    !matches!(kind, LockKind::Replace)
}

/// Whether the value is a name, which its type has kept already.
pub fn is_name(name: &Name) -> bool
    ensures { result ≡ is_name name.now }
{
    !name.bytes().is_empty()
}

/// Whether the value is a task id, which its type has kept already.
pub fn is_task_id(task: &TaskId) -> bool
    ensures { result ≡ is_task_id task.now }
{
    !task.bytes().is_empty()
}
