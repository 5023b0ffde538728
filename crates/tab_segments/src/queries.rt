//! What segments are looked for by.
ghost use Rattle.std.specs.Prelude.{◌&&◌, [], ◌∷◌};
ghost use Rattle.iv_span.specs.Extent.{overlap};
ghost use Rattle.book_rows.specs.Visible.{is_used_over};
ghost use Rattle.row_index.specs.Index.{digest_range};
ghost use Rattle.span_keys.specs.Classes.{span_ranges};
ghost use Rattle.tab_segments.specs.Keys.{chunk_digest, lead_digest, used_digest};
ghost use Rattle.tab_segments.specs.Laws.{at_covers, in_covers, over_covers, used_covers};
ghost use Rattle.tab_segments.specs.Leading.{leads_and, leads_at, leads_in};

use crate::entries::{Entry, chunk_digest, lead_digest, used_digest};
use crate::searches::{ChunkTest, is_used_at, is_used_in, is_used_over};
use iv_span::Span;
use row_index::{Query, digest_range};
use seg_names::{Name, SegId};
use span_keys::{RANGES, span_range};

/// The used segments of a source that overlap a span.
#[derive(Drop)]
pub struct UsedOver<'a> {
    pub source: &'a Name,
    pub span: Span,
}

impl Query<Entry> for UsedOver<'_> {
    ghost passes = { λ q e. is_used_over q.source.now q.span e.row };

    ghost ranges = { λ q. span_ranges (used_digest q.source.now) q.span };

    ghost covers = { λ q e on. used_covers q.source.now q.span e on };

    fn passes(&self, entry: &Entry) -> bool {
        is_used_over(&entry.row, self.source, self.span)
    }

    fn range_count(&self) -> usize {
        RANGES
    }

    fn range(&self, at: usize) -> ((u64, i64), i64) {
        span_range(used_digest(self.source), self.span, at)
    }
}

/// The leading segments of a source that overlap a span and pass a test.
#[derive(Drop)]
pub struct LeadingOver<'a, T: ChunkTest> {
    pub source: &'a Name,
    pub span: Span,
    pub test: &'a T,
}

impl<T: ChunkTest> Query<Entry> for LeadingOver<'_, T> {
    ghost passes = { λ q e. leads_and (λ r. is_used_over q.source.now q.span r && T.passes q.test.now r) e };

    ghost ranges = { λ q. span_ranges (lead_digest q.source.now) q.span };

    ghost covers = { λ q e on. over_covers q.source.now q.span (T.passes q.test.now) e on };

    fn passes(&self, entry: &Entry) -> bool {
        entry.leads
            && (is_used_over(&entry.row, self.source, self.span) && self.test.passes(&entry.row))
    }

    fn range_count(&self) -> usize {
        RANGES
    }

    fn range(&self, at: usize) -> ((u64, i64), i64) {
        span_range(lead_digest(self.source), self.span, at)
    }
}

/// The leading segments of a source that have the start of a span.
#[derive(Drop)]
pub struct LeadingAt<'a> {
    pub source: &'a Name,
    pub around: Span,
}

impl Query<Entry> for LeadingAt<'_> {
    ghost passes = { λ q e. leads_at q.source.now q.around.start e && overlap e.row.id.span q.around };

    ghost ranges = { λ q. span_ranges (lead_digest q.source.now) q.around };

    ghost covers = { λ q e on. at_covers q.source.now q.around.start q.around e on };

    fn passes(&self, entry: &Entry) -> bool {
        entry.leads
            && is_used_at(&entry.row, self.source, self.around.start())
            && entry.row.id.span.overlaps(self.around)
    }

    fn range_count(&self) -> usize {
        RANGES
    }

    fn range(&self, at: usize) -> ((u64, i64), i64) {
        span_range(lead_digest(self.source), self.around, at)
    }
}

/// The leading segment of the chunk of an id.
#[derive(Drop)]
pub struct LeadingIn<'a> {
    pub id: &'a SegId,
}

impl Query<Entry> for LeadingIn<'_> {
    ghost passes = { λ q e. leads_in q.id.now e };

    ghost ranges = { λ q. digest_range (chunk_digest q.id.now) ∷ [] };

    ghost covers = { λ q e on. in_covers q.id.now e on };

    fn passes(&self, entry: &Entry) -> bool {
        entry.leads && is_used_in(&entry.row, self.id)
    }

    fn range_count(&self) -> usize {
        1
    }

    fn range(&self, _at: usize) -> ((u64, i64), i64) {
        digest_range(chunk_digest(&self.id.source, self.id.span, self.id.version))
    }
}
