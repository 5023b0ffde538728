//! A new id: the next part of its chunk, and the pending that has it.
ghost use Rattle.std.specs.Prelude.{◌≡◌, ◌++◌, ◌∷◌, ◌<◌, [], IfOk, None, OnErr, OnOk, Some, false, unwrap_or};
ghost use Rattle.book_rows.specs.Allocation.{allotted, allotted_chunks, allotted_id, allotted_row, new_chunk};
ghost use Rattle.book_rows.specs.Outcome.{is_full, no_room, part_limit};
ghost use Rattle.book_rows.specs.Shape.{AreDistinct, same_chunk_row};
ghost use Rattle.book_rows.specs.declared.kinds.Table.TheVariants as Tables;
ghost use Rattle.book_rows.specs.declared.rows.Book.{Book};
ghost use Rattle.seg_alloc.specs.Answers.{IsAllotted};
ghost use Rattle.seg_alloc.specs.Room.{next_part, no_room_for, own_tables, with_tables};

use crate::OutOfMemory;
use crate::faults::AllotFault;
use crate::room::{is_last, next_part, too_full};
use book_rows::{ChunkRow, NewPending, PendingRow};
use seg_names::SegId;
use std::alloc::Global;
use tab_pending::Pendings;
use tab_segments::Segments;

// The pending with this part, and its id once more.
fn with_part(alloc: Global, row: NewPending, part: u32) -> Result<(SegId, PendingRow), OutOfMemory>
    ensures id { IfOk result (λ made. made.0 ≡ record { source = row.source; span = row.span; version = row.version; part = part }) }
    ensures pending { IfOk result (λ made. made.1 ≡ allotted_row made.0 row) }
{
    let NewPending {
        source,
        span,
        version,
        posse,
        sequence,
        previous,
    } = row;
    let id = SegId {
        source,
        span,
        version,
        part,
    };
    let root = id.twin(alloc)?;
    let told = id.twin(alloc)?;
    let pending = PendingRow {
        id,
        root,
        posse,
        sequence,
        previous,
    };
    Ok((told, pending))
}

// The chunk of an id, which has its first part alone.
fn first_chunk(alloc: Global, id: &SegId) -> Result<ChunkRow, OutOfMemory>
    ensures { IfOk result (λ chunk. chunk ≡ record (new_chunk id.now) { next = 1 }) }
{
    Ok(ChunkRow {
        source: id.source.twin(alloc)?,
        span: id.span,
        version: id.version,
        core: 0,
        next: 1,
    })
}

// Gives the next part of the chunk, which is this one, to the pending.
fn in_chunk(
    alloc: Global,
    segments: &mut Segments,
    pendings: &mut Pendings,
    row: NewPending,
    part: u32,
) -> Result<SegId, OutOfMemory>
    requires distinct { AreDistinct same_chunk_row segments.old.chunks }
    requires next { next_part segments.old.chunks row ≡ Some part }
    requires few { part < part_limit }
    ensures id { IfOk result (λ id. id ≡ allotted_id segments.old.chunks row) }
    ensures segments { OnOk result (segments.new ≡ record segments.old { chunks = allotted_chunks (allotted_id segments.old.chunks row) segments.old.chunks }) }
    ensures pendings { OnOk result (pendings.new ≡ record pendings.old { pendings = pendings.old.pendings ++ allotted_row (allotted_id segments.old.chunks row) row ∷ [] }) }
    ensures segments_kept { OnErr result (segments.new ≡ segments.old) }
    ensures pendings_kept { OnErr result (pendings.new ≡ pendings.old) }
{
    let (id, pending) = with_part(alloc, row, part)?;
    pendings.add(pending)?;
    segments.set_next(&id.source, id.span, id.version, part + 1);
    Ok(id)
}

// Makes the chunk and gives its first part to the pending. The chunk goes again where there is no
// memory for the pending.
fn in_new_chunk(
    alloc: Global,
    segments: &mut Segments,
    pendings: &mut Pendings,
    row: NewPending,
) -> Result<SegId, OutOfMemory>
    requires { next_part segments.old.chunks row ≡ None }
    ensures id { IfOk result (λ id. id ≡ allotted_id segments.old.chunks row) }
    ensures segments { OnOk result (segments.new ≡ record segments.old { chunks = allotted_chunks (allotted_id segments.old.chunks row) segments.old.chunks }) }
    ensures pendings { OnOk result (pendings.new ≡ record pendings.old { pendings = pendings.old.pendings ++ allotted_row (allotted_id segments.old.chunks row) row ∷ [] }) }
    ensures segments_kept { OnErr result (segments.new ≡ segments.old) }
    ensures pendings_kept { OnErr result (pendings.new ≡ pendings.old) }
{
    let (id, pending) = with_part(alloc, row, 0)?;
    let chunk = first_chunk(alloc, &id)?;
    segments.add_chunk(chunk)?;
    if let Err(error) = pendings.add(pending) {
        segments.take_chunk(&id.source, id.span, id.version);
        return Err(error);
    }
    Ok(id)
}

// Gives the next part of its chunk, where the chunk is there, or else the first one, to the pending.
fn with_next_part(
    alloc: Global,
    segments: &mut Segments,
    pendings: &mut Pendings,
    row: NewPending,
    next: Option<u32>,
) -> Result<SegId, OutOfMemory>
    requires distinct { AreDistinct same_chunk_row segments.old.chunks }
    requires next { next ≡ next_part segments.old.chunks row }
    requires few { unwrap_or next 0 < part_limit }
    ensures id { IfOk result (λ id. id ≡ allotted_id segments.old.chunks row) }
    ensures segments { OnOk result (segments.new ≡ record segments.old { chunks = allotted_chunks (allotted_id segments.old.chunks row) segments.old.chunks }) }
    ensures pendings { OnOk result (pendings.new ≡ record pendings.old { pendings = pendings.old.pendings ++ allotted_row (allotted_id segments.old.chunks row) row ∷ [] }) }
    ensures segments_kept { OnErr result (segments.new ≡ segments.old) }
    ensures pendings_kept { OnErr result (pendings.new ≡ pendings.old) }
{
    match next {
        Some(part) => in_chunk(alloc, segments, pendings, row, part),
        None => in_new_chunk(alloc, segments, pendings, row),
    }
}

/// Adds a root pending with the next part of its chunk, and answers its id. A chunk that isn't there
/// is made first. `Full` names the first of the tables of chunks, parts and pendings that has no
/// room. On an error both tables stay as they were.
pub fn allot(
    alloc: Global,
    segments: &mut Segments,
    pendings: &mut Pendings,
    row: NewPending,
) -> Result<SegId, AllotFault>
    // `Full` comes exactly where a table has no room, as to parts the pending's own chunk.
    ensures answer { IsAllotted result (allotted_id segments.old.chunks row) (no_room_for row segments.old.chunks pendings.old.pendings) }

    // In a book where no chunk has too many parts it comes exactly where the rules have it.
    ensures rule { (b : Book) → is_full Tables.Parts (with_tables segments.old.chunks pendings.old.pendings b) ≡ false → IsAllotted result (allotted_id segments.old.chunks row) (no_room own_tables (allotted row (with_tables segments.old.chunks pendings.old.pendings b))) }
    ensures segments { OnOk result (segments.new ≡ record segments.old { chunks = allotted_chunks (allotted_id segments.old.chunks row) segments.old.chunks }) }
    ensures pendings { OnOk result (pendings.new ≡ record pendings.old { pendings = pendings.old.pendings ++ allotted_row (allotted_id segments.old.chunks row) row ∷ [] }) }
    ensures segments_kept { OnErr result (segments.new ≡ segments.old) }
    ensures pendings_kept { OnErr result (pendings.new ≡ pendings.old) }
{
    let next = next_part(segments, &row);
    let last = is_last(pendings.count());
    if let Some(table) = too_full(next, segments.chunk_count(), last) {
        return Err(AllotFault::Full(table));
    }
    Ok(with_next_part(alloc, segments, pendings, row, next)?)
}
