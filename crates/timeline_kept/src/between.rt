//! What a list shows between two instants, put behind another list.
ghost use Rattle.std.specs.Prelude.{◌≡◌, ◌<◌, IfOk, OnOk, Some, length, slice_get};
ghost use Rattle.book_rows.specs.Shown.{ChunkPart};
ghost use Rattle.timeline_kept.specs.Edges.{Splits, ends_before, starts_by};
ghost use Rattle.timeline_kept.specs.PartLists.{part_between, parts_between, put_parts};
ghost use Rattle.timeline_kept.specs.Shown.{AreMaximal};

use crate::OutOfMemory;
use crate::part_list::{PartList, span_of};
use book_rows::{TimelinePart, Twin};
use iv_span::Span;
use std::alloc::Global;

fn ends_before(part: &TimelinePart, at: i64) -> bool
    ensures { result ≡ ends_before at part.now }
{
    part.span.end() < at
}

fn starts_by(part: &TimelinePart, at: i64) -> bool
    ensures { result ≡ starts_by at part.now }
{
    part.span.start() <= at
}

/// How many parts end before the instant.
pub fn count_ended(list: &PartList, at: i64) -> usize
    requires { AreMaximal list.now }
    ensures { Splits (ends_before at) list.now result }
{
    list.as_slice()
        .partition_point(|part| ends_before(part, at))
}

/// How many parts start by the instant.
pub fn count_started(list: &PartList, at: i64) -> usize
    requires { AreMaximal list.now }
    ensures { Splits (starts_by at) list.now result }
{
    list.as_slice().partition_point(|part| starts_by(part, at))
}

fn copied(alloc: Global, part: &TimelinePart, span: Span) -> Result<TimelinePart, OutOfMemory>
    ensures { IfOk result (λ q. q ≡ record part.now { span = span }) }
{
    Ok(TimelinePart {
        span,
        version: part.version,
        ids: part.ids.twin(alloc)?,
    })
}

// Puts behind the others what of the part at the place lies between the instants.
fn put_clipped(
    alloc: Global,
    list: &PartList,
    place: usize,
    from: i64,
    to: i64,
    out: &mut PartList,
) -> Result<(), OutOfMemory>
    requires { place < length list.now }
    ensures { (p : ChunkPart) → slice_get list.now place ≡ Some p → OnOk result (out.new ≡ put_parts out.old (part_between from to p)) }
{
    let (part, chunk) = list.part(place);
    let start = part.span.start().max(from);
    let end = part.span.end().min(to);
    if end <= start {
        return Ok(());
    }
    let clipped = copied(alloc, part, span_of(start, end))?;
    out.put(clipped, chunk)
}

/// Puts behind the others what the list shows between the instants. The error is want of memory.
pub fn put_between(
    alloc: Global,
    list: &PartList,
    from: i64,
    to: i64,
    out: &mut PartList,
) -> Result<(), OutOfMemory>
    requires { AreMaximal list.now }
    ensures { OnOk result (out.new ≡ put_parts out.old (parts_between from to list.now)) }
{
    let last = count_started(list, to);
    for place in count_ended(list, from)..last {
        put_clipped(alloc, list, place, from, to, out)?;
    }
    Ok(())
}
