//! Roots of segments: each is one that a publication adds, and of a tombstone its own.
ghost use Rattle.std.specs.Prelude.{◌&&◌, ◌+◌, ◌<◌, ◌==◌, ◌^◌, ◌≡◌, IfOk, List, length, nat_le, ℕ};
ghost use Rattle.std.specs.List.{list_any};
ghost use Rattle.seg_names.specs.Ids.{same_id};
ghost use Rattle.seg_names.specs.declared.seg_id.SegId.{SegId};
ghost use Rattle.laws_unsound.specs.Rows.{first_failing};
ghost use Rattle.laws_unsound.specs.ShapeRows.{has_root};
ghost use Rattle.row_search.specs.Listed.{has_root_by, is_tombstone_by};

use book_rows::{ChunkRow, Publication, SegmentRow};
use row_search::OutOfMemory;
use row_search::id_chunks::{ByChunk, is_single};
use row_search::index::{Rows, index};
use row_search::keys::same_id;
use row_search::listed::{ById, Listed, added_ids, emptied_ids, is_listed_at, is_listed_up_to};
use row_search::rows::{Test, first_failing};
use seg_names::SegId;
use std::alloc::Global;

/// Ids that publications list, each with the place of its publication.
trait Ids: Drop {
    ghost ids: { Self → List (ℕ × SegId) };

    /// Whether the publication at this place lists the id.
    fn is_at(&self, id: &SegId, commit: u64) -> bool
        ensures { result ≡ list_any (λ e. same_id e.1 id.now && (e.0 == commit)) (ids self.now) };

    /// Whether a publication up to this place lists the id.
    fn is_up_to(&self, id: &SegId, last: u64) -> bool
        ensures { result ≡ list_any (λ e. same_id e.1 id.now && nat_le e.0 last) (ids self.now) };
}

impl Ids for Rows<'_, Listed<'_>, ById> {
    ghost ids = { λ s. s };

    fn is_at(&self, id: &SegId, commit: u64) -> bool
        ensures { result ≡ list_any (λ e. same_id e.1 id.now && (e.0 == commit)) self.now }
    {
        is_listed_at(self, id, commit)
    }

    fn is_up_to(&self, id: &SegId, last: u64) -> bool
        ensures { result ≡ list_any (λ e. same_id e.1 id.now && nat_le e.0 last) self.now }
    {
        is_listed_up_to(self, id, last)
    }
}

/// What the roots of segments are held against.
#[derive(Drop)]
struct Roots<'a, 'b, 'c, A: Ids, E: Ids> {
    chunks: &'a Rows<'b, ChunkRow, ByChunk>,
    added: &'c A,
    emptied: &'c E,
}

fn is_tombstone<E: Ids>(chunks: &Rows<'_, ChunkRow, ByChunk>, emptied: &E, row: &SegmentRow) -> bool
    ensures { result ≡ is_tombstone_by chunks.now (E.ids emptied.now) row.now }
{
    same_id(&row.root, &row.id)
        && (row.id.part == 0 && (is_single(chunks, &row.id) && emptied.is_at(&row.id, row.commit)))
}

impl<A: Ids, E: Ids> Test<SegmentRow> for Roots<'_, '_, '_, A, E> {
    ghost passes = { λ s r. has_root_by s.chunks.now (A.ids s.added.now) (E.ids s.emptied.now) r };

    fn passes(&self, row: &SegmentRow) -> bool {
        if row.tombstone {
            is_tombstone(self.chunks, self.emptied, row)
        } else {
            self.added.is_up_to(&row.root, row.commit)
        }
    }
}

fn first_rootless<A: Ids, E: Ids>(
    before: u64,
    chunks: &Rows<'_, ChunkRow, ByChunk>,
    added: &A,
    emptied: &E,
    segments: &[SegmentRow],
) -> Option<u64>
    requires { before + length segments.now < 2 ^ 64 }
    ensures { result ≡ first_failing before (has_root_by chunks.now (A.ids added.now) (E.ids emptied.now)) segments.now }
{
    let roots = Roots {
        chunks,
        added,
        emptied,
    };
    first_failing(before, segments, &roots)
}

/// The first segment without its root, where so many rows stand before the table's first. The error
/// is want of memory.
#[tactic(auto, using(crate::proofs::Rooting::roots_same))]
pub fn root_row(
    alloc: Global,
    before: u64,
    chunks: &Rows<'_, ChunkRow, ByChunk>,
    publications: &[Publication],
    segments: &[SegmentRow],
) -> Result<Option<u64>, OutOfMemory>
    requires { before + length segments.now < 2 ^ 64 }
    ensures { IfOk result (λ row. row ≡ first_failing before (has_root chunks.now publications.now) segments.now) }
{
    let adds = added_ids(alloc, publications)?;
    let empties = emptied_ids(alloc, publications)?;
    let added = index(alloc, adds.as_slice(), &ById)?;
    let emptied = index(alloc, empties.as_slice(), &ById)?;
    Ok(first_rootless(before, chunks, &added, &emptied, segments))
}
