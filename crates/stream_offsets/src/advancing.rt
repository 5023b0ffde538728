//! The ends of published ranges are stored.
ghost use Rattle.std.specs.Prelude.{◌≡◌, IfOk, OnOk, Some};
ghost use Rattle.book_rows.specs.Offsets.{advanced, end_of, row_for};

use crate::OutOfMemory;
use book_rows::{OffsetRow, Range, Ranges};
use seg_names::Name;
use std::alloc::Global;
use tab_streams::Streams;

// The offset that a published range leaves stored.
fn row_after(
    alloc: Global,
    source: &Name,
    stream: &Name,
    range: &Range,
) -> Result<OffsetRow, OutOfMemory>
    ensures { IfOk result (λ row. row ≡ row_for source.now stream.now (end_of range.now)) }
{
    Ok(OffsetRow {
        source: source.twin(alloc)?,
        stream: stream.twin(alloc)?,
        partition: range.partition,
        offset: range.end,
    })
}

/// Stores the ends of the ranges. The error is want of memory; nothing is known of the table then.
pub fn advance(
    streams: &mut Streams,
    alloc: Global,
    source: &Name,
    ranges: &Ranges,
) -> Result<(), OutOfMemory>
    ensures { OnOk result (streams.new ≡ record streams.old { offsets = advanced streams.old.offsets source.now (Some ranges.now) }) }
{
    for range in ranges.parts.as_slice() {
        streams.set(row_after(alloc, source, &ranges.stream, range)?)?;
    }
    Ok(())
}
