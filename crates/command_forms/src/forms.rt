//! Whether commands keep their form.
ghost use Rattle.std.specs.Prelude.{◌≡◌, option_map};
ghost use Rattle.book_rows.specs.Form.{keeps_form, are_lists, is_shown};

use crate::lists::{are_few_wants, are_ids, are_offsets, are_ranges_of, are_spans, have_wants};
use crate::values::{
    is_count, is_duration, is_end, is_name, is_optional_id, is_span, is_submit_text, is_task_id,
    may_allocate,
};
use book_rows::{Command, ITEM_LIMIT, NUMBER_LIMIT, PRIORITY_LIMIT, REPLICA_LIMIT, Ranges, What};
use iv_span::Span;
use iv_time::in_range;
use seg_names::SegId;

// The most partitions, and the most tasks, of a supervisor.
const TASK_COUNT_LIMIT: u32 = ITEM_LIMIT as u32;

fn are_lists(spans: &[Span], ids: &[SegId], tombstones: &[SegId], ranges: Option<&Ranges>) -> bool
    ensures { result ≡ are_lists spans.now ids.now tombstones.now (option_map (λ r. r.now) ranges.entry) }
{
    are_spans(spans)
        && are_ids(ids)
        && are_ids(tombstones)
        && !(ids.is_empty() && tombstones.is_empty())
        && are_ranges_of(ranges)
}

fn is_shown(what: &What) -> bool
    ensures { result ≡ is_shown what.now }
{
    match what {
        What::Tasks | What::Locks => true,
        What::Timeline(source)
        | What::Contents(source)
        | What::Offsets(source)
        | What::Sequences(source) => is_name(source),
    }
}

/// Whether the command keeps its form: its kinds, its limits and the order of its lists.
pub fn keeps_form(command: &Command) -> bool
    ensures { result ≡ keeps_form command.now }
{
    match command {
        Command::Submit {
            task,
            group,
            source,
            kind: _,
            priority,
            locks,
        } => {
            is_submit_text(task.bytes())
                && is_submit_text(group.bytes())
                && is_name(source)
                && *priority <= PRIORITY_LIMIT
                && are_few_wants(locks.as_slice())
                && have_wants(locks.as_slice())
        }
        Command::Manage { now } => in_range(*now),
        Command::Lock {
            task,
            lock_kind: _,
            span,
            now,
        } => is_task_id(task) && is_span(*span) && in_range(*now),
        Command::Unlock { task, lock } => is_task_id(task) && *lock < NUMBER_LIMIT,
        Command::Allocate {
            task,
            lock_kind,
            sequence,
            previous,
            at,
            granularity: _,
            now,
        } => {
            is_task_id(task)
                && may_allocate(*lock_kind)
                && is_name(sequence)
                && is_optional_id(previous.as_ref())
                && in_range(*at)
                && in_range(*now)
        }
        Command::Append { task, ids, ranges } => {
            is_task_id(task)
                && are_ids(ids.as_slice())
                && are_ranges_of(ranges.as_ref())
                && (!ids.as_slice().is_empty() || ranges.is_some())
        }
        Command::Insert {
            task,
            spans,
            ids,
            tombstones,
            ranges,
        }
        | Command::Replace {
            task,
            spans,
            ids,
            tombstones,
            ranges,
        } => {
            is_task_id(task)
                && are_lists(
                    spans.as_slice(),
                    ids.as_slice(),
                    tombstones.as_slice(),
                    ranges.as_ref(),
                )
        }
        Command::End { task, status } => is_task_id(task) && is_end(*status),
        Command::Drop { source, span } => is_name(source) && is_span(*span),
        Command::Reset {
            source,
            stream,
            offsets,
        } => is_name(source) && is_name(stream) && are_offsets(offsets.as_slice()),
        Command::Supervise {
            source,
            stream,
            partitions,
            task_count,
            replicas,
            task_duration,
            completion_timeout,
        } => {
            is_name(source)
                && is_name(stream)
                && is_count(*partitions, TASK_COUNT_LIMIT)
                && is_count(*task_count, TASK_COUNT_LIMIT)
                && is_count(*replicas, REPLICA_LIMIT)
                && is_duration(*task_duration)
                && is_duration(*completion_timeout)
        }
        Command::Tick { now } => in_range(*now),
        Command::Paused { task, offsets } | Command::Checkpoint { task, offsets } => {
            is_task_id(task) && !offsets.as_slice().is_empty() && are_offsets(offsets.as_slice())
        }
        Command::ToReplace { task, span } => is_task_id(task) && is_span(*span),
        Command::Show { what } => is_shown(what),
    }
}
