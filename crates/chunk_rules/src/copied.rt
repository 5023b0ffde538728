//! Live chunks above others: each has a core, and one copy of each root pending below.
ghost use Rattle.std.specs.Prelude.{◌&&◌, ◌+◌, ◌<◌, ◌==◌, ◌^◌, ◌||◌, ◌≡◌, Bool, IfOk, Some, length, map, slice_get};
ghost use Rattle.book_rows.specs.declared.rows.ChunkRow.{ChunkRow};
ghost use Rattle.laws_unsound.specs.ChunkRows.{copied_row};
ghost use Rattle.laws_unsound.specs.Rows.{first_clashing};
ghost use Rattle.row_search.specs.Classes.{class_ranges};
ghost use Rattle.chunk_rules.specs.Copies.{bare_reaches, is_bare, is_one_bare, lacks_a_copy, meets_all, root_chunk, root_class, root_classes, root_key, root_ranges};
ghost use Rattle.chunk_rules.specs.Lives.{chunk_at};
ghost use Rattle.row_search.specs.Starts.{IsCounted};

use crate::copies::{ByCopy, Copies, copy_rows, has_root_in, lacks_a_copy};
use crate::lives::{ByOwnChunk, LiveChunk};
use book_rows::{Book, ChunkRow, PendingRow};
use iv_span::Span;
use row_search::OutOfMemory;
use row_search::clashes::first_clashing;
use row_search::classes::{class_digest, class_key};
use row_search::index::{Keying, Rows, Seeking, index};
use row_search::starts::Starts;
use seg_names::Name;
use span_keys::{RANGES, span_range};
use std::alloc::Global;
use std::marker::Model;

/// A chunk, whether it is live, and whether it has a root pending.
#[derive(Drop)]
struct RootChunk<'a> {
    chunk: &'a ChunkRow,
    live: bool,
    rooted: bool,
}

impl<'a> Model for RootChunk<'a> {
    ghost use Rattle.chunk_rules.specs.Copies.{RootChunk};

    ghost Value = { RootChunk };

    ghost view = { λ a. record { chunk = a.chunk.now; live = a.live; rooted = a.rooted } };
}

/// What an upper chunk may lack.
trait Lacks: Drop {
    ghost lacks: { Self → ChunkRow → ChunkRow → Bool };

    /// Whether the upper chunk lacks a copy of a root pending of the lower one.
    fn lacks(&self, lower: &ChunkRow, upper: &ChunkRow) -> bool
        ensures { result ≡ lacks self.now lower.now upper.now };
}

// ---- how chunks meet

/// Two chunks of which the upper has no core or lacks a copy.
#[derive(Drop)]
struct OneBare<'a, L: Lacks> {
    lacks: &'a L,
}

fn root_class(chunk: &RootChunk<'_>) -> u64
    ensures { result ≡ root_class chunk.now }
{
    if !chunk.live {
        return 4;
    }
    match (chunk.chunk.core == 0, chunk.rooted) {
        (true, false) => 0,
        (true, true) => 1,
        (false, true) => 2,
        (false, false) => 3,
    }
}

fn meets_all(chunk: &RootChunk<'_>) -> bool
    ensures { result ≡ meets_all chunk.now }
{
    chunk.chunk.core == 0 || chunk.rooted
}

fn class_count(all: bool) -> usize
    ensures { result ≡ length (root_classes all) }
{
    if all { 4 } else { 3 }
}

fn class_at(all: bool, at: usize) -> u64
    requires { at < length (root_classes all) }
    ensures { slice_get (root_classes all) at ≡ Some result }
{
    match at {
        0 => 0,
        1 => 1,
        2 => 2,
        _ => 3,
    }
}

fn class_range(source: &Name, span: Span, all: bool, at: usize) -> ((u64, i64), i64)
    requires { at < length (class_ranges source.now span (root_classes all)) }
    ensures { slice_get (class_ranges source.now span (root_classes all)) at ≡ Some result }
{
    let number = class_at(all, at / RANGES);
    span_range(class_digest(source, number), span, at % RANGES)
}

fn is_bare<L: Lacks>(lacks: &L, lower: &RootChunk<'_>, upper: &RootChunk<'_>) -> bool
    ensures { result ≡ is_bare (L.lacks lacks.now) lower.now upper.now }
{
    let low = lower.chunk;
    let high = upper.chunk;
    lower.live
        && (upper.live
            && (low.source == high.source
                && (low.span.overlaps(high.span)
                    && (low.version < high.version
                        && (high.core == 0 || (lower.rooted && lacks.lacks(low, high)))))))
}

impl<L: Lacks> Keying<RootChunk<'_>> for OneBare<'_, L> {
    ghost key = { root_key };

    fn key(&self, row: &RootChunk<'_>) -> (u64, i64) {
        class_key(&row.chunk.source, root_class(row), row.chunk.span)
    }
}

impl<'a, 'b, L: Lacks> Seeking<RootChunk<'a>, RootChunk<'b>> for OneBare<'_, L> {
    ghost holds = { λ s x y. is_one_bare (L.lacks s.lacks.now) x y };

    ghost ranges = { root_ranges };

    ghost reaches = { λ s x y on. bare_reaches (L.lacks s.lacks.now) x y on };

    fn holds(&self, asked: &RootChunk<'a>, row: &RootChunk<'b>) -> bool {
        is_bare(self.lacks, asked, row) || is_bare(self.lacks, row, asked)
    }

    fn range_count(&self, asked: &RootChunk<'a>) -> usize
        ensures { result ≡ length (root_ranges asked.now) }
    {
        class_count(meets_all(asked)) * RANGES
    }

    fn range(&self, asked: &RootChunk<'a>, at: usize) -> ((u64, i64), i64)
        requires { at < length (root_ranges asked.now) }
        ensures { slice_get (root_ranges asked.now) at ≡ Some result }
    {
        let row = asked.chunk;
        class_range(&row.source, row.span, meets_all(asked), at)
    }
}

fn first_bare<L: Lacks>(
    alloc: Global,
    before: u64,
    chunks: &[RootChunk<'_>],
    lacks: &L,
) -> Result<Option<u64>, OutOfMemory>
    requires { before + length chunks.now < 2 ^ 64 }
    ensures { IfOk result (λ row. row ≡ first_clashing before (is_one_bare (L.lacks lacks.now)) chunks.now) }
{
    first_clashing(alloc, before, chunks, &OneBare { lacks })
}

// ---- what they may lack

/// Pendings, and the copies among them.
#[derive(Drop)]
struct Pendings<'a, 'b, C: Copies> {
    rows: &'a Rows<'b, PendingRow, ByOwnChunk>,
    copies: &'a C,
}

impl<C: Copies> Lacks for Pendings<'_, '_, C> {
    ghost lacks = { λ s c d. lacks_a_copy (C.rows s.copies.now) s.rows.now c d };

    fn lacks(&self, lower: &ChunkRow, upper: &ChunkRow) -> bool {
        lacks_a_copy(self.rows, self.copies, lower, upper)
    }
}

// Each chunk, with whether it has a root pending.
fn with_roots<'a>(
    alloc: Global,
    pendings: &Rows<'_, PendingRow, ByOwnChunk>,
    chunks: &[LiveChunk<'a>],
) -> Result<Vec<RootChunk<'a>>, OutOfMemory>
    ensures { IfOk result (λ v. v.items ≡ map (root_chunk pendings.now) chunks.now) }
{
    let mut found = Vec::new(alloc);
    for row in chunks {
        let rooted = has_root_in(pendings, row.chunk);
        found.push(RootChunk {
            chunk: row.chunk,
            live: row.live,
            rooted,
        })?;
    }
    Ok(found)
}

fn first_uncopied<C: Copies>(
    alloc: Global,
    before: u64,
    pendings: &Rows<'_, PendingRow, ByOwnChunk>,
    copies: &C,
    chunks: &[LiveChunk<'_>],
) -> Result<Option<u64>, OutOfMemory>
    requires { before + length chunks.now < 2 ^ 64 }
    ensures { IfOk result (λ row. row ≡ first_clashing before (is_one_bare (lacks_a_copy (C.rows copies.now) pendings.now)) (map (root_chunk pendings.now) chunks.now)) }
{
    let rooted = with_roots(alloc, pendings, chunks)?;
    let lacks = Pendings {
        rows: pendings,
        copies,
    };
    first_bare(alloc, before, rooted.as_slice(), &lacks)
}

/// The first of two live chunks of which the upper has no core or lacks a copy of a root pending of the
/// lower, where so many rows stand before the table's first. The error is want of memory.
pub fn copied_row(
    alloc: Global,
    book: &Book,
    starts: Starts,
    chunks: &[LiveChunk<'_>],
) -> Result<Option<u64>, OutOfMemory>
    requires counted { IsCounted book.now starts }
    requires chunks { chunks.now ≡ map (chunk_at book.now.segments book.now.pendings) book.now.chunks }
    ensures { IfOk result (λ row. row ≡ copied_row book.now) }
{
    let pendings = book.pendings.as_slice();
    let rows = copy_rows(alloc, pendings)?;
    let copies = index(alloc, rows.as_slice(), &ByCopy)?;
    let owned = index(alloc, pendings, &ByOwnChunk)?;
    let row = first_uncopied(alloc, starts.chunks, &owned, &copies, chunks)?;
    Ok(row)
}
