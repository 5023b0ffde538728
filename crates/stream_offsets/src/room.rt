//! Whether the tables have room.
ghost use Rattle.std.specs.Prelude.{◌≡◌, ◌+◌, Some, filter, length, nat_lt, true};
ghost use Rattle.book_rows.specs.Offsets.{advanced};
ghost use Rattle.book_rows.specs.Outcome.{row_limit};
ghost use Rattle.stream_offsets.specs.Room.{is_new, no_room_by, no_room_for_reset, ranges_ascend};
ghost use Rattle.tab_streams.specs.Order.{Ascend};

use book_rows::{ROW_LIMIT, Range, Ranges, Table};
use seg_names::Name;
use tab_streams::Streams;

/// Whether a table of so many rows would have too many with so many more.
pub fn exceeds(count: usize, more: usize) -> bool
    ensures { result ≡ nat_lt row_limit (count + more) }
{
    more > ROW_LIMIT || count > ROW_LIMIT - more
}

/// The first table that is too full after one more publication, by whether there are too many
/// offsets.
pub fn too_full(publications: u64, offsets: bool) -> Option<Table>
    ensures { result ≡ no_room_by publications offsets }
{
    if publications >= ROW_LIMIT as u64 {
        Some(Table::Publications)
    } else if offsets {
        Some(Table::Offsets)
    } else {
        None
    }
}

fn is_new(streams: &Streams, source: &Name, stream: &Name, range: &Range) -> bool
    ensures { result ≡ is_new streams.now.offsets source.now stream.now range.now }
{
    streams.stored(source, stream, range.partition).is_none()
}

// How many of the ranges have no stored offset.
fn new_count(streams: &Streams, source: &Name, ranges: &Ranges) -> usize
    ensures { result ≡ length (filter (is_new streams.now.offsets source.now ranges.now.stream) ranges.now.parts) }
{
    ranges
        .parts
        .as_slice()
        .iter()
        .filter(|range| is_new(streams, source, &ranges.stream, range))
        .count()
}

// Whether there would be too many offsets with the ends of the ranges.
fn exceeds_with(streams: &Streams, source: &Name, ranges: &Ranges) -> bool
    requires stored { Ascend streams.now.offsets }
    requires ascending { ranges_ascend (Some ranges.now) ≡ true }
    ensures { result ≡ nat_lt row_limit (length (advanced streams.now.offsets source.now (Some ranges.now))) }
{
    exceeds(streams.offset_count(), new_count(streams, source, ranges))
}

fn exceeds_after(streams: &Streams, source: &Name, ranges: &Option<Ranges>) -> bool
    requires stored { Ascend streams.now.offsets }
    requires ascending { ranges_ascend ranges.now ≡ true }
    ensures { result ≡ nat_lt row_limit (length (advanced streams.now.offsets source.now ranges.now)) }
{
    match ranges {
        Some(ranges) => exceeds_with(streams, source, ranges),
        None => streams.offset_count() > ROW_LIMIT,
    }
}

/// The first table that would be too full after a publication with these ranges, whose partitions
/// ascend. Nothing is made for it.
pub fn room_for_ranges(streams: &Streams, source: &Name, ranges: &Option<Ranges>) -> Option<Table>
    requires stored { Ascend streams.now.offsets }
    requires ascending { ranges_ascend ranges.now ≡ true }
    ensures { result ≡ no_room_for_reset (length streams.now.publications) (length (advanced streams.now.offsets source.now ranges.now)) }
{
    too_full(streams.count(), exceeds_after(streams, source, ranges))
}
