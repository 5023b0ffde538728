//! What segments are asked besides that they are used and over a span.
ghost use Rattle.std.specs.Prelude.{◌≡◌, ◌&&◌, Bool, bytes_eq, int_lt, not, true};
ghost use Rattle.iv_span.specs.Extent.{covers};
ghost use Rattle.book_rows.specs.Ids.{same_chunk};
ghost use Rattle.book_rows.specs.Visible.{is_used_at, is_used_over};
ghost use Rattle.book_rows.specs.declared.rows.SegmentRow.{SegmentRow};
ghost use Rattle.tab_segments.specs.Laws.{across_whole, newer_whole};
ghost use Rattle.tab_segments.specs.Leading.{is_used_in, lies_within};

use crate::entries::same_span;
use book_rows::SegmentRow;
use iv_span::Span;
use seg_names::{Name, SegId};

/// A test of segments that all of a chunk pass, or none.
pub trait ChunkTest: Drop {
    ghost passes: { Self → SegmentRow → Bool };

    /// Whether the segment passes.
    fn passes(&self, row: &SegmentRow) -> bool
        ensures { result ≡ passes self.now row.now };

    ghost whole: { (t : Self) (r s : SegmentRow) → passes t r ≡ true → same_chunk s.id r.id ≡ true → passes t s ≡ true };
}

/// All segments.
#[derive(Drop)]
pub struct Every;

impl ChunkTest for Every {
    ghost passes = { λ t r. true };

    ghost whole = { λ t r s on same. on };

    fn passes(&self, _row: &SegmentRow) -> bool {
        true
    }
}

/// Those of a greater version.
#[derive(Drop)]
pub struct Newer {
    pub version: i64,
}

impl ChunkTest for Newer {
    ghost passes = { λ t r. int_lt t.version r.id.version };

    ghost whole = { λ t r s on same. newer_whole t.version r s on same };

    fn passes(&self, row: &SegmentRow) -> bool {
        self.version < row.id.version
    }
}

/// Those that don't lie within a span.
#[derive(Drop)]
pub struct Across {
    pub span: Span,
}

impl ChunkTest for Across {
    ghost passes = { λ t r. not (covers t.span r.id.span) };

    ghost whole = { λ t r s on same. across_whole t.span r s on same };

    fn passes(&self, row: &SegmentRow) -> bool {
        !self.span.contains(row.id.span)
    }
}

/// Whether the segment is used, of the source, and overlaps the span.
pub fn is_used_over(row: &SegmentRow, source: &Name, span: Span) -> bool
    ensures { result ≡ is_used_over source.now span row.now }
{
    row.used && row.id.source == *source && row.id.span.overlaps(span)
}

/// Whether the segment is used, of the source, and has the instant.
pub fn is_used_at(row: &SegmentRow, source: &Name, at: i64) -> bool
    ensures { result ≡ is_used_at source.now at row.now }
{
    row.used && row.id.source == *source && row.id.span.has(at)
}

/// Whether the segment is used, and in the chunk of the id.
pub fn is_used_in(row: &SegmentRow, id: &SegId) -> bool
    ensures { result ≡ is_used_in id.now row.now }
{
    row.used
        && (row.id.source == id.source
            && same_span(row.id.span, id.span)
            && row.id.version == id.version)
}

/// Whether the segment is of the source and lies within the span.
pub fn lies_within(row: &SegmentRow, source: &Name, span: Span) -> bool
    ensures { result ≡ lies_within source.now span row.now }
{
    row.id.source == *source && span.contains(row.id.span)
}
