//! A stream's offsets are reset.
ghost use Rattle.std.specs.Prelude.{◌≡◌, OnErr, OnOk, length, nat_lt, true};
ghost use Rattle.book_rows.specs.Lists.{list_links};
ghost use Rattle.book_rows.specs.Offsets.{reset_to};
ghost use Rattle.stream_offsets.specs.Room.{no_room_for_reset};

use crate::OutOfMemory;
use crate::room::too_full;
use book_rows::{Offset, ROW_LIMIT, Table};
use seg_names::Name;
use std::alloc::Global;
use tab_streams::Streams;

/// The first table that would be too full after a reset of the stream to these offsets, whose
/// partitions ascend. Nothing is made for it.
pub fn room_for_reset(
    streams: &Streams,
    source: &Name,
    stream: &Name,
    offsets: &[Offset],
) -> Option<Table>
    requires { list_links (λ a b. nat_lt a.partition b.partition) offsets.now ≡ true }
    ensures { result ≡ no_room_for_reset (length streams.now.publications) (length (reset_to streams.now.offsets source.now stream.now offsets.now)) }
{
    let count = streams.reset_count(source, stream, offsets);
    too_full(streams.count(), count > ROW_LIMIT)
}

/// Puts these offsets in the place of the stream's. The error is want of memory, and leaves the
/// table as it was.
pub fn reset(
    streams: &mut Streams,
    alloc: Global,
    source: &Name,
    stream: &Name,
    offsets: &[Offset],
) -> Result<(), OutOfMemory>
    ensures ok { OnOk result (streams.new ≡ record streams.old { offsets = reset_to streams.old.offsets source.now stream.now offsets.now }) }
    ensures err { OnErr result (streams.new ≡ streams.old) }
{
    streams.reset_stream(alloc, source, stream, offsets)
}
