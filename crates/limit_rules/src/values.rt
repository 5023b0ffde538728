//! Whether values and lists keep their limits.
ghost use Rattle.std.specs.Prelude.{◌≡◌, nat_lt};
ghost use Rattle.std.specs.List.{list_all};
ghost use Rattle.iv_time.specs.Durations.{is_duration};
ghost use Rattle.seg_names.specs.Names.{is_between, is_name, is_task_id};
ghost use Rattle.book_rows.specs.Form.{are_offsets, are_parts, is_id, is_offset, is_optional_id, is_range};
ghost use Rattle.book_rows.specs.Lists.{list_links};
ghost use Rattle.book_rows.specs.Spans.{is_span};

use book_rows::{ITEM_LIMIT, OFFSET_LIMIT, Offset, PARTITION_LIMIT, Range};
use iv_span::Span;
use iv_time::in_range;
use seg_names::{Name, SegId, TaskId};

/// Whether the value is a name, which its type has kept already.
pub fn is_name(name: &Name) -> bool
    ensures { result ≡ is_name name.now }
{
    !name.bytes().is_empty()
}

/// Whether the value is a task id, which its type has kept already.
pub fn is_task_id(task: &TaskId) -> bool
    ensures { result ≡ is_task_id task.now }
{
    !task.bytes().is_empty()
}

/// Whether all are task ids, which their type has kept already.
pub fn are_task_ids(tasks: &[TaskId]) -> bool
    ensures { result ≡ list_all is_task_id tasks.now }
{
    tasks.iter().all(is_task_id)
}

/// Whether both ends are instants.
pub fn is_span(span: Span) -> bool
    ensures { result ≡ is_span span }
{
    in_range(span.start()) && in_range(span.end()) && span.start() < span.end()
}

/// Whether the instants of an id are in range. Its part always is.
pub fn is_id(id: &SegId) -> bool
    ensures { result ≡ is_id id.now }
{
    is_name(&id.source) && is_span(id.span) && in_range(id.version) && id.part <= u32::MAX
}

/// Whether all are ids of instants in range.
pub fn are_ids(ids: &[SegId]) -> bool
    ensures { result ≡ list_all is_id ids.now }
{
    ids.iter().all(is_id)
}

/// Whether there is no id, or one of instants in range.
pub fn is_optional_id(id: &Option<SegId>) -> bool
    ensures { result ≡ is_optional_id id.now }
{
    match id {
        Some(id) => is_id(id),
        None => true,
    }
}

/// Whether the number of milliseconds is a duration.
pub fn is_duration(ms: i64) -> bool
    ensures { result ≡ is_duration ms }
{
    ms % 1_000 == 0 && 1_000 <= ms && ms <= 36_609_996_339_000
}

/// Whether the number is at least 1 and at most the other.
pub fn is_count(number: u32, most: u32) -> bool
    ensures { result ≡ is_between 1 most number }
{
    1 <= number && number <= most
}

// ---- partitions

fn is_offset(offset: Offset) -> bool
    ensures { result ≡ is_offset offset }
{
    offset.partition <= PARTITION_LIMIT && offset.offset <= OFFSET_LIMIT
}

fn have_offsets(offsets: &[Offset]) -> bool
    ensures { result ≡ list_all is_offset offsets.now }
{
    offsets.iter().all(|offset| is_offset(*offset))
}

fn offsets_ascend(offsets: &[Offset]) -> bool
    ensures { result ≡ list_links (λ a b. nat_lt a.partition b.partition) offsets.now }
{
    let Some((first, rest)) = offsets.split_first() else {
        return true;
    };
    let mut last = *first;
    for offset in rest {
        if last.partition >= offset.partition {
            return false;
        }
        last = *offset;
    }
    true
}

/// Whether they are offsets of distinct partitions, not too many, in order.
pub fn are_offsets(offsets: &[Offset]) -> bool
    ensures { result ≡ are_offsets offsets.now }
{
    offsets.len() <= ITEM_LIMIT && have_offsets(offsets) && offsets_ascend(offsets)
}

fn is_range(range: Range) -> bool
    ensures { result ≡ is_range range }
{
    range.partition <= PARTITION_LIMIT && range.start <= OFFSET_LIMIT && range.end <= OFFSET_LIMIT
}

fn have_ranges(ranges: &[Range]) -> bool
    ensures { result ≡ list_all is_range ranges.now }
{
    ranges.iter().all(|range| is_range(*range))
}

fn ranges_ascend(ranges: &[Range]) -> bool
    ensures { result ≡ list_links (λ a b. nat_lt a.partition b.partition) ranges.now }
{
    let Some((first, rest)) = ranges.split_first() else {
        return true;
    };
    let mut last = *first;
    for range in rest {
        if last.partition >= range.partition {
            return false;
        }
        last = *range;
    }
    true
}

/// Whether they are ranges of distinct partitions, not too many, in order.
pub fn are_parts(parts: &[Range]) -> bool
    ensures { result ≡ are_parts parts.now }
{
    parts.len() <= ITEM_LIMIT && have_ranges(parts) && ranges_ascend(parts)
}
