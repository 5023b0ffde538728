//! Whether the tables have room for a new id.
ghost use Rattle.std.specs.Prelude.{◌≡◌, ◌+◌, false, length, nat_lt, unwrap_or};
ghost use Rattle.book_rows.specs.Allocation.{allotted};
ghost use Rattle.book_rows.specs.Lists.{stands_in};
ghost use Rattle.book_rows.specs.Locks.{stripped};
ghost use Rattle.book_rows.specs.Outcome.{no_room, part_limit, row_limit};
ghost use Rattle.book_rows.specs.declared.rows.Book.{Book};
ghost use Rattle.seg_alloc.specs.Room.{AreWithin, count_after, is_last, next_part, own_tables, too_full, with_tables};

use book_rows::{NewPending, PART_LIMIT, ROW_LIMIT, Table};
use tab_pending::Pendings;
use tab_segments::Segments;

/// The next part of the pending's chunk, where the chunk is there.
pub fn next_part(segments: &Segments, row: &NewPending) -> Option<u32>
    ensures { result ≡ next_part segments.now.chunks row.now }
{
    match segments.chunk(&row.source, row.span, row.version) {
        Some(chunk) => Some(chunk.next),
        None => None,
    }
}

fn has_too_many_chunks(next: Option<u32>, chunks: usize) -> bool
    ensures { result ≡ nat_lt row_limit (count_after next chunks) }
{
    match next {
        Some(_) => chunks > ROW_LIMIT,
        None => chunks >= ROW_LIMIT,
    }
}

fn has_too_many_parts(next: Option<u32>) -> bool
    ensures { result ≡ nat_lt part_limit (unwrap_or next 0 + 1) }
{
    match next {
        Some(part) => part as u64 >= PART_LIMIT,
        None => false,
    }
}

/// Whether one more row is too many.
pub fn is_last(count: usize) -> bool
    ensures { result ≡ is_last count }
{
    count >= ROW_LIMIT
}

/// The first of the tables that is too full after a part is given, by the next part, the number of
/// chunks, and whether one more pending is too many.
pub fn too_full(next: Option<u32>, chunks: usize, pendings: bool) -> Option<Table>
    ensures { result ≡ too_full next chunks pendings }
{
    if has_too_many_chunks(next, chunks) {
        Some(Table::Chunks)
    } else if has_too_many_parts(next) {
        Some(Table::Parts)
    } else if pendings {
        Some(Table::Pendings)
    } else {
        None
    }
}

// Whether one more pending is too many once those of these locks are gone.
fn is_last_without(pendings: &Pendings, locks: &[u64]) -> bool
    requires { nat_lt row_limit (length pendings.now.pendings) ≡ false }
    ensures { result ≡ is_last (length (stripped (stands_in locks.now) pendings.now.pendings)) }
{
    is_last(pendings.count()) && !pendings.any_of(locks)
}

/// The first of the tables of chunks, parts and pendings that would be too full after the pending is
/// added, once those of the locks of these numbers are gone. Nothing is made for it.
pub fn room_for(
    segments: &Segments,
    pendings: &Pendings,
    row: &NewPending,
    locks: &[u64],
) -> Option<Table>
    requires { AreWithin segments.now.chunks pendings.now.pendings }
    ensures { (b : Book) → result ≡ no_room own_tables (allotted row.now (with_tables segments.now.chunks (stripped (stands_in locks.now) pendings.now.pendings) b)) }
{
    let next = next_part(segments, row);
    let last = is_last_without(pendings, locks);
    too_full(next, segments.chunk_count(), last)
}
