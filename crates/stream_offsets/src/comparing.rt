//! Whether ranges go on from the stored offsets.
ghost use Rattle.std.specs.Prelude.{◌≡◌, Some};
ghost use Rattle.book_rows.specs.Offsets.{compared, part_fault};
ghost use Rattle.stream_offsets.specs.Answers.{fault_of};

use crate::faults::OffsetFault;
use book_rows::{Range, Ranges};
use seg_names::Name;
use tab_streams::Streams;

// Whether the range goes on from the stored offset of its partition.
fn check_range(stored: Option<u64>, range: &Range) -> Result<(), OffsetFault>
    ensures { fault_of result ≡ part_fault stored range.now }
{
    if range.end < range.start {
        return Err(OffsetFault::BadRange(range.partition));
    }
    match stored {
        Some(offset) if offset != range.start => {
            Err(OffsetFault::Mismatch(range.partition, offset))
        }
        _ => Ok(()),
    }
}

/// Whether the ranges go on from the stored offsets of their stream. The fault is that of the first
/// range that doesn't.
pub fn compare(streams: &Streams, source: &Name, ranges: &Ranges) -> Result<(), OffsetFault>
    ensures { fault_of result ≡ compared streams.now.offsets source.now (Some ranges.now) }
{
    for range in ranges.parts.as_slice() {
        let stored = streams.stored(source, &ranges.stream, range.partition);
        check_range(stored, range)?;
    }
    Ok(())
}
