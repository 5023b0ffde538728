//! Whether rows keep their limits, and have nothing that their kind or state excludes.
ghost use Rattle.std.specs.Prelude.{◌==◌, ◌≡◌, length, nat_le};
ghost use Rattle.std.specs.List.{list_all};
ghost use Rattle.book_rows.specs.Form.{is_want};
ghost use Rattle.book_rows.specs.Shape.{are_points, are_row_ranges, fits_kind, fits_state, has_no_since, is_append, is_chunk_row, is_offset_row, is_pending_row, is_posse_row, is_publication_row, is_report, is_segment_row, is_sequence_row, is_supervisor_row, is_task_row, is_upgrade_row};
ghost use Rattle.book_rows.specs.Spans.{is_span};
ghost use Rattle.laws_unsound.specs.ShapeRows.{has_parts_left};

use crate::values::{
    are_ids, are_offsets, are_parts, are_task_ids, is_count, is_duration, is_id, is_name,
    is_optional_id, is_span, is_task_id,
};
use book_rows::{
    ChunkRow, ITEM_LIMIT, OFFSET_LIMIT, OffsetRow, PART_LIMIT, PARTITION_LIMIT, PRIORITY_LIMIT,
    PendingRow, PosseRow, PubKind, Publication, REPLICA_LIMIT, Range, Ranges, Report, SegmentRow,
    SeqState, SequenceRow, SpanSince, SupervisorRow, TaskRow, UpgradeRow, WANT_LIMIT, Want,
};
use iv_time::in_range;

fn have_wants(wants: &[Want]) -> bool
    ensures { result ≡ list_all is_want wants.now }
{
    wants.iter().all(|want| is_span(want.span))
}

/// Whether a task keeps its limits.
pub fn is_task_row(row: &TaskRow) -> bool
    ensures { result ≡ is_task_row row.now }
{
    is_task_id(&row.task)
        && is_task_id(&row.group)
        && is_name(&row.source)
        && row.priority <= PRIORITY_LIMIT
        && row.wants.len() <= WANT_LIMIT
        && have_wants(row.wants.as_slice())
}

/// Whether a lock keeps its limits.
pub fn is_posse_row(row: &PosseRow) -> bool
    ensures { result ≡ is_posse_row row.now }
{
    is_task_id(&row.group)
        && is_name(&row.source)
        && is_span(row.span)
        && in_range(row.version)
        && row.priority <= PRIORITY_LIMIT
        && are_task_ids(row.members.as_slice())
}

/// Whether a chunk keeps its limits, but for its next part.
pub fn is_chunk_row(row: &ChunkRow) -> bool
    ensures { result ≡ is_chunk_row row.now }
{
    is_name(&row.source) && is_span(row.span) && in_range(row.version)
}

/// Whether a chunk's next part keeps its limit.
pub fn has_parts_left(row: &ChunkRow) -> bool
    ensures { result ≡ has_parts_left row.now }
{
    u64::from(row.next) <= PART_LIMIT
}

/// Whether a segment keeps its limits.
pub fn is_segment_row(row: &SegmentRow) -> bool
    ensures { result ≡ is_segment_row row.now }
{
    is_id(&row.id) && is_id(&row.root)
}

/// Whether a pending keeps its limits, but for its lock's number.
pub fn is_pending_row(row: &PendingRow) -> bool
    ensures { result ≡ is_pending_row row.now }
{
    is_id(&row.id) && is_id(&row.root) && is_name(&row.sequence) && is_optional_id(&row.previous)
}

/// Whether an upgrade row keeps its limits, but for its lock's number.
pub fn is_upgrade_row(row: &UpgradeRow) -> bool
    ensures { result ≡ is_upgrade_row row.now }
{
    is_id(&row.root)
}

// ---- publications

fn are_row_ranges(ranges: &Option<Ranges>) -> bool
    ensures { result ≡ are_row_ranges ranges.now }
{
    match ranges {
        Some(ranges) => is_name(&ranges.stream) && are_parts(ranges.parts.as_slice()),
        None => true,
    }
}

fn have_spans(spans: &[SpanSince]) -> bool
    ensures { result ≡ list_all (λ s. is_span s.span) spans.now }
{
    spans.iter().all(|since| is_span(since.span))
}

/// Whether a publication keeps its limits.
pub fn is_publication_row(row: &Publication) -> bool
    ensures { result ≡ is_publication_row row.now }
{
    is_task_id(&row.group)
        && is_name(&row.source)
        && row.spans.len() <= ITEM_LIMIT
        && have_spans(row.spans.as_slice())
        && row.adds.len() <= ITEM_LIMIT
        && are_ids(row.adds.as_slice())
        && row.empties.len() <= ITEM_LIMIT
        && are_ids(row.empties.as_slice())
        && are_row_ranges(&row.ranges)
}

fn have_no_since(spans: &[SpanSince]) -> bool
    ensures { result ≡ list_all (λ s. s.since == 0) spans.now }
{
    spans.iter().all(|since| since.since == 0)
}

fn are_all_points(parts: &[Range]) -> bool
    ensures { result ≡ list_all (λ r. r.start == r.end) parts.now }
{
    parts.iter().all(|range| range.start == range.end)
}

fn are_points(ranges: &Option<Ranges>) -> bool
    ensures { result ≡ are_points ranges.now }
{
    match ranges {
        Some(ranges) => are_all_points(ranges.parts.as_slice()),
        None => false,
    }
}

/// Whether a publication has nothing that its kind excludes.
pub fn fits_kind(row: &Publication) -> bool
    ensures { result ≡ fits_kind row.now.kind row.now }
{
    match row.kind {
        PubKind::Append => row.spans.as_slice().is_empty() && row.empties.as_slice().is_empty(),
        PubKind::Over => have_no_since(row.spans.as_slice()),
        PubKind::Replace => true,
        PubKind::Drop => {
            row.spans.len() == 1
                && have_no_since(row.spans.as_slice())
                && row.group.bytes() == b"-".as_slice()
                && row.empties.as_slice().is_empty()
        }
        PubKind::Reset => {
            row.spans.as_slice().is_empty()
                && row.group.bytes() == b"-".as_slice()
                && are_points(&row.ranges)
                && row.empties.as_slice().is_empty()
        }
    }
}

// ---- offsets, supervisors and sequences

/// Whether a stored offset keeps its limits.
pub fn is_offset_row(row: &OffsetRow) -> bool
    ensures { result ≡ is_offset_row row.now }
{
    is_name(&row.source)
        && is_name(&row.stream)
        && row.partition <= PARTITION_LIMIT
        && row.offset <= OFFSET_LIMIT
}

/// Whether a supervisor keeps its limits.
pub fn is_supervisor_row(row: &SupervisorRow) -> bool
    ensures { result ≡ is_supervisor_row row.now }
{
    is_name(&row.source)
        && is_name(&row.stream)
        && is_count(row.partitions, ITEM_LIMIT as u32)
        && is_count(row.task_count, ITEM_LIMIT as u32)
        && is_count(row.replicas, REPLICA_LIMIT)
        && is_duration(row.duration)
        && is_duration(row.timeout)
}

fn is_report(report: &Report) -> bool
    ensures { result ≡ is_report report.now }
{
    is_task_id(&report.task) && are_offsets(report.offsets.as_slice())
}

fn are_reports(reports: &[Report]) -> bool
    ensures { result ≡ list_all is_report reports.now }
{
    reports.iter().all(is_report)
}

/// Whether a sequence keeps its limits.
pub fn is_sequence_row(row: &SequenceRow) -> bool
    ensures { result ≡ is_sequence_row row.now }
{
    is_name(&row.source)
        && in_range(row.opened)
        && in_range(row.closed)
        && are_offsets(row.starts.as_slice())
        && are_offsets(row.ends.as_slice())
        && are_task_ids(row.live.as_slice())
        && are_reports(row.reports.as_slice())
}

/// Whether a sequence has nothing that its state excludes.
pub fn fits_state(row: &SequenceRow) -> bool
    ensures { result ≡ fits_state row.now.state row.now }
{
    match row.state {
        SeqState::Reading | SeqState::Paused => row.closed == 0 && row.ends.as_slice().is_empty(),
        SeqState::Closed | SeqState::Published | SeqState::Abandoned => true,
    }
}
