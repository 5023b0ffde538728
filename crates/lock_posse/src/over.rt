//! Locks of a source over a span.
ghost use Rattle.std.specs.Prelude.{◌≡◌, ◌&&◌, Bool};
ghost use Rattle.book_rows.specs.declared.rows.PosseRow.{PosseRow};
ghost use Rattle.span_keys.specs.Classes.{span_ranges};
ghost use Rattle.lock_posse.specs.Keys.{is_over, source_digest};
ghost use Rattle.lock_posse.specs.Laws.{over_covers};

use crate::keys::{Lock, source_digest};
use book_rows::PosseRow;
use iv_span::Span;
use row_index::Query;
use seg_names::Name;
use span_keys::{RANGES, span_range};

/// A test of locks.
pub trait LockTest: Drop {
    ghost passes: { Self → PosseRow → Bool };

    /// Whether the lock passes.
    fn passes(&self, row: &PosseRow) -> bool
        ensures { result ≡ passes self.now row.now };
}

fn is_over(row: &PosseRow, source: &Name, span: Span) -> bool
    ensures { result ≡ is_over source.now span row.now }
{
    row.source == *source && row.span.overlaps(span)
}

/// The locks of a source that overlap a span and pass a test.
#[derive(Drop)]
pub struct Over<'a, T: LockTest> {
    pub source: &'a Name,
    pub span: Span,
    pub test: &'a T,
}

impl<T: LockTest> Query<Lock> for Over<'_, T> {
    ghost passes = { λ q p. is_over q.source.now q.span p && T.passes q.test.now p };

    ghost ranges = { λ q. span_ranges (source_digest q.source.now) q.span };

    ghost covers = { λ q p on. over_covers q.source.now q.span p (T.passes q.test.now p) on };

    fn passes(&self, row: &Lock) -> bool {
        is_over(&row.row, self.source, self.span) && self.test.passes(&row.row)
    }

    fn range_count(&self) -> usize {
        RANGES
    }

    fn range(&self, at: usize) -> ((u64, i64), i64) {
        span_range(source_digest(self.source), self.span, at)
    }
}
