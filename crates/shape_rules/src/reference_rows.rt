//! What rows refer to: chunk rows of ids, and commits.
ghost use Rattle.std.specs.Prelude.{◌+◌, ◌<◌, ◌^◌, ◌≡◌, length, nat_le, nat_lt};
ghost use Rattle.std.specs.List.{list_all};
ghost use Rattle.laws_unsound.specs.Rows.{first_failing, least};
ghost use Rattle.laws_unsound.specs.ShapeRows.{commit_rows, has_chunk, id_rows};
ghost use Rattle.row_search.specs.Starts.{IsCounted};

use book_rows::{Book, ChunkRow, PendingRow, PosseRow, Publication, SegmentRow, SpanSince};
use row_search::id_chunks::{ByChunk, has_chunk, have_chunks};
use row_search::index::Rows;
use row_search::rows::{Test, first_failing, lesser};
use row_search::starts::Starts;

/// The chunk rows of a row's own id.
#[derive(Drop)]
struct OwnChunk<'a, 'b> {
    chunks: &'a Rows<'b, ChunkRow, ByChunk>,
}

impl Test<SegmentRow> for OwnChunk<'_, '_> {
    ghost passes = { λ s r. has_chunk s.chunks.now r.id };

    fn passes(&self, row: &SegmentRow) -> bool {
        has_chunk(self.chunks, &row.id)
    }
}

impl Test<PendingRow> for OwnChunk<'_, '_> {
    ghost passes = { λ s p. has_chunk s.chunks.now p.id };

    fn passes(&self, row: &PendingRow) -> bool {
        has_chunk(self.chunks, &row.id)
    }
}

/// The chunk rows of the ids that a publication adds.
#[derive(Drop)]
struct AddedChunks<'a, 'b> {
    chunks: &'a Rows<'b, ChunkRow, ByChunk>,
}

impl Test<Publication> for AddedChunks<'_, '_> {
    ghost passes = { λ s m. list_all (has_chunk s.chunks.now) m.adds };

    fn passes(&self, row: &Publication) -> bool {
        have_chunks(self.chunks, row.adds.as_slice())
    }
}

/// The chunk rows of a publication's tombstones.
#[derive(Drop)]
struct EmptiedChunks<'a, 'b> {
    chunks: &'a Rows<'b, ChunkRow, ByChunk>,
}

impl Test<Publication> for EmptiedChunks<'_, '_> {
    ghost passes = { λ s m. list_all (has_chunk s.chunks.now) m.empties };

    fn passes(&self, row: &Publication) -> bool {
        have_chunks(self.chunks, row.empties.as_slice())
    }
}

fn segment_row(
    before: u64,
    chunks: &Rows<'_, ChunkRow, ByChunk>,
    rows: &[SegmentRow],
) -> Option<u64>
    requires { before + length rows.now < 2 ^ 64 }
    ensures { result ≡ first_failing before (λ r. has_chunk chunks.now r.id) rows.now }
{
    first_failing(before, rows, &OwnChunk { chunks })
}

fn pending_row(
    before: u64,
    chunks: &Rows<'_, ChunkRow, ByChunk>,
    rows: &[PendingRow],
) -> Option<u64>
    requires { before + length rows.now < 2 ^ 64 }
    ensures { result ≡ first_failing before (λ p. has_chunk chunks.now p.id) rows.now }
{
    first_failing(before, rows, &OwnChunk { chunks })
}

fn added_row(before: u64, chunks: &Rows<'_, ChunkRow, ByChunk>, rows: &[Publication]) -> Option<u64>
    requires { before + length rows.now < 2 ^ 64 }
    ensures { result ≡ first_failing before (λ m. list_all (has_chunk chunks.now) m.adds) rows.now }
{
    first_failing(before, rows, &AddedChunks { chunks })
}

fn emptied_row(
    before: u64,
    chunks: &Rows<'_, ChunkRow, ByChunk>,
    rows: &[Publication],
) -> Option<u64>
    requires { before + length rows.now < 2 ^ 64 }
    ensures { result ≡ first_failing before (λ m. list_all (has_chunk chunks.now) m.empties) rows.now }
{
    first_failing(before, rows, &EmptiedChunks { chunks })
}

/// The least row with an id that has no chunk row with a next part above its own.
pub fn id_row(chunks: &Rows<'_, ChunkRow, ByChunk>, book: &Book, starts: Starts) -> Option<u64>
    requires counted { IsCounted book.now starts }
    requires chunks { chunks.now ≡ book.now.chunks }
    ensures { result ≡ least (id_rows book.now) }
{
    let publications = book.publications.as_slice();
    let before = starts.publications;
    let segment = segment_row(starts.segments, chunks, book.segments.as_slice());
    let pending = pending_row(starts.pendings, chunks, book.pendings.as_slice());
    let added = added_row(before, chunks, publications);
    let emptied = emptied_row(before, chunks, publications);
    let row = lesser(added, emptied);
    let row = lesser(pending, row);
    lesser(segment, row)
}

// ---- commits

/// How many publications there are.
#[derive(Drop)]
struct Commits {
    count: u64,
}

impl Test<SegmentRow> for Commits {
    ghost passes = { λ s r. nat_lt r.commit s.count };

    fn passes(&self, row: &SegmentRow) -> bool {
        row.commit < self.count
    }
}

impl Test<PosseRow> for Commits {
    ghost passes = { λ s q. nat_le q.since s.count };

    fn passes(&self, row: &PosseRow) -> bool {
        row.since <= self.count
    }
}

fn are_known(spans: &[SpanSince], count: u64) -> bool
    ensures { result ≡ list_all (λ s. nat_le s.since count) spans.now }
{
    spans.iter().all(|since| since.since <= count)
}

impl Test<Publication> for Commits {
    ghost passes = { λ s m. list_all (λ x. nat_le x.since s.count) m.spans };

    fn passes(&self, row: &Publication) -> bool {
        are_known(row.spans.as_slice(), self.count)
    }
}

fn uncounted_segment(before: u64, count: u64, rows: &[SegmentRow]) -> Option<u64>
    requires { before + length rows.now < 2 ^ 64 }
    ensures { result ≡ first_failing before (λ r. nat_lt r.commit count) rows.now }
{
    first_failing(before, rows, &Commits { count })
}

fn uncounted_lock(before: u64, count: u64, rows: &[PosseRow]) -> Option<u64>
    requires { before + length rows.now < 2 ^ 64 }
    ensures { result ≡ first_failing before (λ q. nat_le q.since count) rows.now }
{
    first_failing(before, rows, &Commits { count })
}

fn uncounted_publication(before: u64, count: u64, rows: &[Publication]) -> Option<u64>
    requires { before + length rows.now < 2 ^ 64 }
    ensures { result ≡ first_failing before (λ m. list_all (λ s. nat_le s.since count) m.spans) rows.now }
{
    first_failing(before, rows, &Commits { count })
}

/// The least row that counts publications which aren't there.
pub fn commit_row(book: &Book, starts: Starts) -> Option<u64>
    requires { IsCounted book.now starts }
    ensures { result ≡ least (commit_rows book.now) }
{
    let publications = book.publications.as_slice();
    let count = publications.len() as u64;
    let segment = uncounted_segment(starts.segments, count, book.segments.as_slice());
    let lock = uncounted_lock(starts.posses, count, book.posses.as_slice());
    let publication = uncounted_publication(starts.publications, count, publications);
    let row = lesser(lock, publication);
    lesser(segment, row)
}
