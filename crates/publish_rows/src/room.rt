//! Whether the tables have room for the rows of a publish. Nothing is made for it.
ghost use Rattle.std.specs.Prelude.{◌++◌, ◌+◌, ◌∷◌, ◌≡◌, None, Some, [], cond, false, length, nat_lt, true};
ghost use Rattle.std.specs.List.{list_any};
ghost use Rattle.book_rows.specs.Offsets.{advanced};
ghost use Rattle.book_rows.specs.Outcome.{no_room, part_limit};
ghost use Rattle.book_rows.specs.declared.rows.Book.{Book};
ghost use Rattle.publish_rows.specs.Room.{append_tables, drop_tables, insert_tables, over_full, replace_tables};
ghost use Rattle.stream_offsets.specs.Room.{ranges_ascend};
ghost use Rattle.tab_streams.specs.Order.{Ascend};

use book_rows::{
    ChunkRow, PART_LIMIT, PendingRow, Publication, ROW_LIMIT, SegmentRow, Table, UpgradeRow,
};
use stream_offsets::{exceeds, room_for_ranges};
use tab_pending::Pendings;
use tab_segments::Segments;
use tab_streams::Streams;

// The table where it is too full, or else what is told of the others.
fn full_or(full: bool, table: Table, others: Option<Table>) -> Option<Table>
    ensures { result ≡ cond full (Some table) others }
{
    if full { Some(table) } else { others }
}

// Whether one of the chunks gives too great a part next.
fn exceed_parts(chunks: &[ChunkRow]) -> bool
    ensures { result ≡ list_any (λ c. nat_lt part_limit c.next) chunks.now }
{
    chunks
        .iter()
        .any(|chunk| u64::from(chunk.next) > PART_LIMIT)
}

/// The first table that would be too full after an append that adds these segments and upgrade rows
/// and this publication.
pub fn room_for_append(
    segments: &Segments,
    pendings: &Pendings,
    streams: &Streams,
    rows: &[SegmentRow],
    upgrades: &[UpgradeRow],
    publication: &Publication,
) -> Option<Table>
    requires stored { Ascend streams.now.offsets }
    requires ascending { ranges_ascend publication.now.ranges ≡ true }
    ensures { (b : Book) → b.segments ≡ segments.now.segments ++ rows.now → b.upgrades ≡ pendings.now.upgrades ++ upgrades.now → b.publications ≡ streams.now.publications ++ publication.now ∷ [] → b.offsets ≡ advanced streams.now.offsets publication.now.source publication.now.ranges → result ≡ no_room append_tables b }
{
    let others = room_for_ranges(streams, &publication.source, &publication.ranges);
    let others = full_or(
        exceeds(pendings.upgrade_count(), upgrades.len()),
        Table::Upgrades,
        others,
    );
    full_or(
        exceeds(segments.segment_count(), rows.len()),
        Table::Segments,
        others,
    )
}

// The first of the tables of chunks, parts and segments that would be too full with these, or else
// what is told of the others.
fn over_full_or(
    segments: &Segments,
    chunks: &[ChunkRow],
    rows: &[SegmentRow],
    others: Option<Table>,
) -> Option<Table>
    ensures { result ≡ over_full (length segments.now.chunks + length chunks.now) (list_any (λ c. nat_lt part_limit c.next) chunks.now) (length segments.now.segments + length rows.now) others }
{
    if exceeds(segments.chunk_count(), chunks.len()) {
        Some(Table::Chunks)
    } else if exceed_parts(chunks) {
        Some(Table::Parts)
    } else if exceeds(segments.segment_count(), rows.len()) {
        Some(Table::Segments)
    } else {
        others
    }
}

/// The first table that would be too full after an insert that adds these chunks, segments and this
/// publication.
pub fn room_for_insert(
    segments: &Segments,
    streams: &Streams,
    chunks: &[ChunkRow],
    rows: &[SegmentRow],
    publication: &Publication,
) -> Option<Table>
    requires parts { list_any (λ c. nat_lt part_limit c.next) segments.now.chunks ≡ false }
    requires stored { Ascend streams.now.offsets }
    requires ascending { ranges_ascend publication.now.ranges ≡ true }
    ensures { (b : Book) → b.chunks ≡ segments.now.chunks ++ chunks.now → b.segments ≡ segments.now.segments ++ rows.now → b.publications ≡ streams.now.publications ++ publication.now ∷ [] → b.offsets ≡ advanced streams.now.offsets publication.now.source publication.now.ranges → result ≡ no_room insert_tables b }
{
    let others = room_for_ranges(streams, &publication.source, &publication.ranges);
    over_full_or(segments, chunks, rows, others)
}

/// The first table that would be too full after a replacement that adds these chunks, segments,
/// pendings and this publication.
pub fn room_for_replace(
    segments: &Segments,
    pendings: &Pendings,
    streams: &Streams,
    chunks: &[ChunkRow],
    rows: &[SegmentRow],
    copies: &[PendingRow],
    publication: &Publication,
) -> Option<Table>
    requires parts { list_any (λ c. nat_lt part_limit c.next) segments.now.chunks ≡ false }
    requires stored { Ascend streams.now.offsets }
    requires ascending { ranges_ascend publication.now.ranges ≡ true }
    ensures { (b : Book) → b.chunks ≡ segments.now.chunks ++ chunks.now → b.segments ≡ segments.now.segments ++ rows.now → b.pendings ≡ pendings.now.pendings ++ copies.now → b.publications ≡ streams.now.publications ++ publication.now ∷ [] → b.offsets ≡ advanced streams.now.offsets publication.now.source publication.now.ranges → result ≡ no_room replace_tables b }
{
    let others = room_for_ranges(streams, &publication.source, &publication.ranges);
    let others = full_or(
        exceeds(pendings.count(), copies.len()),
        Table::Pendings,
        others,
    );
    over_full_or(segments, chunks, rows, others)
}

/// The table of publications, where it would be too full after a drop.
pub fn room_for_drop(streams: &Streams) -> Option<Table>
    ensures { (b : Book) → length b.publications ≡ length streams.now.publications + 1 → result ≡ no_room drop_tables b }
{
    full_or(
        streams.count() >= ROW_LIMIT as u64,
        Table::Publications,
        None,
    )
}
