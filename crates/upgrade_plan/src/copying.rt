//! The copies that a replacement carries into its new chunk.
ghost use Rattle.std.specs.Prelude.{◌≡◌, ◌+◌, ◌<◌, ◌≤◌, ◌^◌, IfOk, vec_len};
ghost use Rattle.book_rows.specs.Lists.{numbered};
ghost use Rattle.book_rows.specs.Outcome.{part_limit};
ghost use Rattle.book_rows.specs.Rewrite.{copies_for, copy_id, how_many, pending_copy};
ghost use Rattle.upgrade_plan.specs.NewRows.{root_copy};

use crate::OutOfMemory;
use book_rows::{Copies, Items, PendingRow, SegmentRow};
use iv_span::Span;
use seg_names::{Name, SegId};
use std::alloc::Global;
use tab_pending::Pendings;

/// The chunk that copies go into.
#[derive(Drop)]
struct NewChunk<'a> {
    source: &'a Name,
    span: Span,
    version: i64,
}

fn copy_id(alloc: Global, chunk: &NewChunk<'_>, part: u32) -> Result<SegId, OutOfMemory>
    ensures { IfOk result (λ id. id ≡ copy_id chunk.now.source.now chunk.now.span chunk.now.version part) }
{
    Ok(SegId {
        source: chunk.source.twin(alloc)?,
        span: chunk.span,
        version: chunk.version,
        part,
    })
}

fn root_copy(
    alloc: Global,
    chunk: &NewChunk<'_>,
    commit: u64,
    part: u32,
    root: SegId,
) -> Result<SegmentRow, OutOfMemory>
    ensures { IfOk result (λ row. row ≡ root_copy chunk.now.source.now chunk.now.span chunk.now.version commit part root) }
{
    Ok(SegmentRow {
        id: copy_id(alloc, chunk, part)?,
        used: true,
        root,
        commit,
        tombstone: false,
    })
}

fn pending_copy(
    alloc: Global,
    chunk: &NewChunk<'_>,
    part: u32,
    pending: PendingRow,
) -> Result<PendingRow, OutOfMemory>
    ensures { IfOk result (λ row. row ≡ pending_copy chunk.now.source.now chunk.now.span chunk.now.version part pending) }
{
    let id = copy_id(alloc, chunk, part)?;
    Ok(PendingRow { id, ..pending })
}

// Copies of published roots, numbered on from a part.
fn root_copies(
    alloc: Global,
    chunk: &NewChunk<'_>,
    commit: u64,
    from: u32,
    roots: Vec<SegId>,
) -> Result<Vec<SegmentRow>, OutOfMemory>
    requires { from + vec_len roots < 2 ^ 32 }
    ensures { IfOk result (λ v. v.items ≡ numbered (root_copy chunk.now.source.now chunk.now.span chunk.now.version commit) from roots.items) }
{
    let mut copies = Vec::new(alloc);
    let mut part = from;
    for root in roots {
        copies.push(root_copy(alloc, chunk, commit, part, root)?)?;
        part += 1;
    }
    Ok(copies)
}

// Copies of pendings, numbered on from a part.
fn pending_copies(
    alloc: Global,
    chunk: &NewChunk<'_>,
    from: u32,
    found: Vec<PendingRow>,
) -> Result<Vec<PendingRow>, OutOfMemory>
    requires { from + vec_len found < 2 ^ 32 }
    ensures { IfOk result (λ v. v.items ≡ numbered (pending_copy chunk.now.source.now chunk.now.span chunk.now.version) from found.items) }
{
    let mut copies = Vec::new(alloc);
    let mut part = from;
    for pending in found {
        copies.push(pending_copy(alloc, chunk, part, pending)?)?;
        part += 1;
    }
    Ok(copies)
}

/// The copies that the replacement of a span under a lock carries: one of each upgrade root of the
/// lock, and then one of each root pending of the source, that lies within the span. They are
/// numbered on from a part. The error is want of memory.
pub fn copies_for_replace(
    alloc: Global,
    pendings: &Pendings,
    posse: u64,
    source: &Name,
    span: Span,
    version: i64,
    from: u32,
    commit: u64,
) -> Result<Copies, OutOfMemory>
    requires { from + how_many (copies_for pendings.now.pendings pendings.now.upgrades posse source.now span version from commit) ≤ part_limit }
    ensures { IfOk result (λ copies. copies ≡ copies_for pendings.now.pendings pendings.now.upgrades posse source.now span version from commit) }
{
    let chunk = NewChunk {
        source,
        span,
        version,
    };
    let roots = pendings.upgrades_within(alloc, posse, span)?;
    let waiting = pendings.roots_within(alloc, source, span)?;
    let next = from + roots.len() as u32;
    let segments = root_copies(alloc, &chunk, commit, from, roots)?;
    let pendings = pending_copies(alloc, &chunk, next, waiting)?;
    Ok(Copies {
        segments: Items::from_vec(segments),
        pendings: Items::from_vec(pendings),
    })
}
