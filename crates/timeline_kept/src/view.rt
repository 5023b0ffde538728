//! What keeps the timelines of sources.
ghost use Rattle.std.specs.Prelude.{◌≡◌, ◌≢◌, List, OnErr, OnOk, map, ℕ};
ghost use Rattle.book_rows.specs.Shown.{ChunkPart, timeline_part};
ghost use Rattle.laws_parts.specs.Laws.{chunk_at};
ghost use Rattle.timeline_kept.specs.Rows.{AreRowsOver};
ghost use Rattle.timeline_kept.specs.Shown.{AreShown, given_over, shown_at};

use crate::OutOfMemory;
use book_rows::{SegmentRow, TimelinePart};
use iv_span::Span;
use seg_names::Name;
use std::alloc::Global;

/// The timeline of each source, changed in some spans at a time.
pub trait View {
    /// The parts of a source's timeline, each with the span of its chunk.
    ghost parts: { Self → List ℕ → List ChunkPart };

    /// In the spans the source shows what the rows show, and elsewhere what it showed, as other sources do. The error is want
    /// of memory, and leaves every source as it was.
    fn changed(
        &mut self,
        alloc: Global,
        source: &Name,
        spans: &[Span],
        rows: &[SegmentRow],
    ) -> Result<(), OutOfMemory>
        requires { AreRowsOver source.now spans.now rows.now }
        ensures own { OnOk result (AreShown (given_over spans.now (chunk_at rows.now source.now) (shown_at (parts self.old source.now))) (parts self.new source.now)) }
        ensures others { OnOk result ((other : List ℕ) → source.now ≢ other → parts self.new other ≡ parts self.old other) }
        ensures err { OnErr result ((other : List ℕ) → parts self.new other ≡ parts self.old other) };

    /// The parts of the source, lent.
    fn lend(&self, source: &Name) -> &[TimelinePart]
        ensures { result.now ≡ map timeline_part (parts self.now source.now) };
}
