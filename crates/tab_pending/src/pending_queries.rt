//! What pendings are looked for by.
ghost use Rattle.std.specs.Prelude.{◌≡◌, ◌&&◌, ◌==◌, [], ◌∷◌, ◌+ℤ◌, Bool, IfSome, find, pos};
ghost use Rattle.std.specs.Option.{option_copied};
ghost use Rattle.seg_names.specs.Ids.{same_id};
ghost use Rattle.book_rows.specs.Allocation.{is_known, is_pending_at, is_pending_over, is_root};
ghost use Rattle.book_rows.specs.Append.{is_root_of};
ghost use Rattle.book_rows.specs.declared.rows.PendingRow.{PendingRow};
ghost use Rattle.row_index.specs.Index.{digest_range};
ghost use Rattle.span_keys.specs.Classes.{span_ranges};
ghost use Rattle.tab_pending.specs.Keys.{lock_digest, lock_ranges, ranges_over, request_digest, root_digest, source_digest};
ghost use Rattle.tab_pending.specs.Searches.{is_copied_over, is_of_one, is_over_one, is_root_across, is_root_over};
ghost use Rattle.tab_pending.specs.Covers.{copied_covers, known_covers, lock_covers, locks_cover, over_covers, over_one_covers, own_root_covers, root_across_covers, root_covers, root_of_covers, root_over_covers};

use crate::ids::{is_root, same_id, same_previous};
use crate::keys::{Pending, lock_digest, request_digest, root_digest, source_digest};
use crate::ranges::{is_one, lock_range, range_count, range_over};
use apart_spans::SpanList;
use book_rows::PendingRow;
use iv_span::Span;
use row_index::{Query, digest_range};
use row_table::RowTable;
use seg_names::{Name, SegId};
use span_keys::{RANGES, span_range};

/// The root pendings of a source, a sequence and a previous id.
#[derive(Drop)]
pub struct Known<'a> {
    pub source: &'a Name,
    pub sequence: &'a Name,
    pub previous: Option<&'a SegId>,
}

impl Query<Pending> for Known<'_> {
    ghost passes = { λ q p. is_known q.source.now q.sequence.now (option_copied q.previous) p };

    ghost ranges = { λ q. digest_range (request_digest q.source.now q.sequence.now (option_copied q.previous)) ∷ [] };

    ghost covers = { λ q p on. known_covers q.source.now q.sequence.now (option_copied q.previous) p on };

    fn passes(&self, pending: &Pending) -> bool {
        let row = &pending.row;
        is_root(row)
            && row.id.source == *self.source
            && row.sequence == *self.sequence
            && same_previous(&row.previous, self.previous)
    }

    fn range_count(&self) -> usize {
        1
    }

    fn range(&self, _at: usize) -> ((u64, i64), i64) {
        digest_range(request_digest(self.source, self.sequence, self.previous))
    }
}

// ---- by source and span

fn is_over(row: &PendingRow, source: &Name, span: Span) -> bool
    ensures { result ≡ is_pending_over source.now span row.now }
{
    row.id.source == *source && row.id.span.overlaps(span)
}

/// The pendings of a source that overlap a span.
#[derive(Drop)]
pub struct OverSpan<'a> {
    pub source: &'a Name,
    pub span: Span,
}

impl Query<Pending> for OverSpan<'_> {
    ghost passes = { λ q p. is_pending_over q.source.now q.span p };

    ghost ranges = { λ q. span_ranges (source_digest q.source.now) q.span };

    ghost covers = { λ q p on. over_covers q.source.now q.span p on };

    fn passes(&self, pending: &Pending) -> bool {
        is_over(&pending.row, self.source, self.span)
    }

    fn range_count(&self) -> usize {
        RANGES
    }

    fn range(&self, at: usize) -> ((u64, i64), i64) {
        span_range(source_digest(self.source), self.span, at)
    }
}

/// The root pendings of a source that overlap a span.
#[derive(Drop)]
pub struct RootOver<'a> {
    pub source: &'a Name,
    pub span: Span,
}

impl Query<Pending> for RootOver<'_> {
    ghost passes = { λ q p. is_root_over q.source.now q.span p };

    ghost ranges = { λ q. span_ranges (source_digest q.source.now) q.span };

    ghost covers = { λ q p on. root_over_covers q.source.now q.span p on };

    fn passes(&self, pending: &Pending) -> bool {
        is_root(&pending.row) && is_over(&pending.row, self.source, self.span)
    }

    fn range_count(&self) -> usize {
        RANGES
    }

    fn range(&self, at: usize) -> ((u64, i64), i64) {
        span_range(source_digest(self.source), self.span, at)
    }
}

fn is_copied_over(row: &PendingRow, source: &Name, span: Span) -> bool
    ensures { result ≡ is_copied_over source.now span row.now }
{
    is_over(row, source, span)
        && is_root(row)
        && row.id.source == *source
        && span.contains(row.id.span)
}

/// The root pendings of a source that lie within a span, which they overlap.
#[derive(Drop)]
pub struct RootWithin<'a> {
    pub source: &'a Name,
    pub span: Span,
}

impl Query<Pending> for RootWithin<'_> {
    ghost passes = { λ q p. is_copied_over q.source.now q.span p };

    ghost ranges = { λ q. span_ranges (source_digest q.source.now) q.span };

    ghost covers = { λ q p on. copied_covers q.source.now q.span p on };

    fn passes(&self, pending: &Pending) -> bool {
        is_copied_over(&pending.row, self.source, self.span)
    }

    fn range_count(&self) -> usize {
        RANGES
    }

    fn range(&self, at: usize) -> ((u64, i64), i64) {
        span_range(source_digest(self.source), self.span, at)
    }
}

/// The pendings of a source that overlap one of these spans.
#[derive(Drop)]
pub struct OverOne<'a> {
    pub source: &'a Name,
    pub spans: SpanList<'a>,
}

impl Query<Pending> for OverOne<'_> {
    ghost passes = { λ q p. is_over_one q.source.now q.spans p };

    ghost ranges = { λ q. ranges_over (source_digest q.source.now) q.spans };

    ghost covers = { λ q p on. over_one_covers q.source.now q.spans p on };

    fn passes(&self, pending: &Pending) -> bool {
        let id = &pending.row.id;
        id.source == *self.source && self.spans.overlaps(id.span)
    }

    fn range_count(&self) -> usize {
        range_count(self.spans.spans(), source_digest(self.source))
    }

    fn range(&self, at: usize) -> ((u64, i64), i64) {
        range_over(source_digest(self.source), self.spans.spans(), at)
    }
}

/// The root pendings of a source that overlap one of these spans and don't lie within it.
#[derive(Drop)]
pub struct RootAcross<'a> {
    pub source: &'a Name,
    pub spans: SpanList<'a>,
}

impl Query<Pending> for RootAcross<'_> {
    ghost passes = { λ q p. is_root_across q.source.now q.spans p };

    ghost ranges = { λ q. ranges_over (source_digest q.source.now) q.spans };

    ghost covers = { λ q p on. root_across_covers q.source.now q.spans p on };

    fn passes(&self, pending: &Pending) -> bool {
        let row = &pending.row;
        is_root(row) && row.id.source == *self.source && self.spans.straddles(row.id.span)
    }

    fn range_count(&self) -> usize {
        range_count(self.spans.spans(), source_digest(self.source))
    }

    fn range(&self, at: usize) -> ((u64, i64), i64) {
        range_over(source_digest(self.source), self.spans.spans(), at)
    }
}

// ---- at an instant

/// The span of an instant alone. The greatest number of all, which is no instant, has none.
pub fn instant_span(at: i64) -> Option<Span>
    ensures { IfSome result (λ span. span ≡ record { start = at; end = at +ℤ pos 1 }) }
{
    match at.checked_add(1) {
        Some(end) => Span::new(at, end).ok(),
        None => None,
    }
}

/// The first pending of the source that overlaps the span.
pub fn first_in<'a>(
    pendings: &'a RowTable<Pending>,
    source: &Name,
    span: Span,
) -> Option<&'a PendingRow>
    ensures { option_copied result ≡ find (is_pending_over source.now span) pendings.now }
{
    match pendings.first(&OverSpan { source, span }) {
        Some(pending) => Some(&pending.row),
        None => None,
    }
}

fn is_at(row: &PendingRow, source: &Name, at: i64) -> bool
    ensures { result ≡ is_pending_at source.now at row.now }
{
    row.id.source == *source && row.id.span.has(at)
}

/// The first pending of the source that has the instant, by a look at each.
pub fn first_by_scan<'a>(
    pendings: &'a RowTable<Pending>,
    source: &Name,
    at: i64,
) -> Option<&'a PendingRow>
    ensures { option_copied result ≡ find (is_pending_at source.now at) pendings.now }
{
    for pending in pendings.iter() {
        if is_at(&pending.row, source, at) {
            return Some(&pending.row);
        }
    }
    None
}

// ---- by root

/// The pendings with a root.
#[derive(Drop)]
pub struct WithRoot<'a> {
    pub root: &'a SegId,
}

impl Query<Pending> for WithRoot<'_> {
    ghost passes = { λ q p. same_id p.root q.root.now };

    ghost ranges = { λ q. digest_range (root_digest q.root.now) ∷ [] };

    ghost covers = { λ q p on. root_covers q.root.now p on };

    fn passes(&self, pending: &Pending) -> bool {
        same_id(&pending.row.root, self.root)
    }

    fn range_count(&self) -> usize {
        1
    }

    fn range(&self, _at: usize) -> ((u64, i64), i64) {
        digest_range(root_digest(self.root))
    }
}

/// The root pendings of an id.
#[derive(Drop)]
pub struct RootOf<'a> {
    pub id: &'a SegId,
}

impl Query<Pending> for RootOf<'_> {
    ghost passes = { λ q p. is_root_of q.id.now p };

    ghost ranges = { λ q. digest_range (root_digest q.id.now) ∷ [] };

    ghost covers = { λ q p on. root_of_covers q.id.now p on };

    fn passes(&self, pending: &Pending) -> bool {
        same_id(&pending.row.root, self.id) && same_id(&pending.row.id, self.id)
    }

    fn range_count(&self) -> usize {
        1
    }

    fn range(&self, _at: usize) -> ((u64, i64), i64) {
        digest_range(root_digest(self.id))
    }
}

/// A test of pendings.
pub trait PendingTest: Drop {
    ghost passes: { Self → PendingRow → Bool };

    /// Whether the pending passes.
    fn passes(&self, row: &PendingRow) -> bool
        ensures { result ≡ passes self.now row.now };
}

/// The root pendings of an id that pass a test.
#[derive(Drop)]
pub struct RootPassing<'a, T: PendingTest> {
    pub id: &'a SegId,
    pub test: &'a T,
}

impl<T: PendingTest> Query<Pending> for RootPassing<'_, T> {
    ghost passes = { λ q p. is_root p && same_id p.id q.id.now && T.passes q.test.now p };

    ghost ranges = { λ q. digest_range (root_digest q.id.now) ∷ [] };

    ghost covers = { λ q p on. own_root_covers q.id.now p (T.passes q.test.now p) on };

    fn passes(&self, pending: &Pending) -> bool {
        let row = &pending.row;
        is_root(row) && same_id(&row.id, self.id) && self.test.passes(row)
    }

    fn range_count(&self) -> usize {
        1
    }

    fn range(&self, _at: usize) -> ((u64, i64), i64) {
        digest_range(root_digest(self.id))
    }
}

// ---- by lock

/// The pendings of a lock.
#[derive(Drop)]
pub struct OfLock {
    pub lock: u64,
}

impl Query<Pending> for OfLock {
    ghost passes = { λ q p. p.posse == q.lock };

    ghost ranges = { λ q. digest_range (lock_digest q.lock) ∷ [] };

    ghost covers = { λ q p on. lock_covers q.lock p on };

    fn passes(&self, pending: &Pending) -> bool {
        pending.row.posse == self.lock
    }

    fn range_count(&self) -> usize {
        1
    }

    fn range(&self, _at: usize) -> ((u64, i64), i64) {
        digest_range(lock_digest(self.lock))
    }
}

/// The pendings of one of these locks.
#[derive(Drop)]
pub struct OfOneLock<'a> {
    pub locks: &'a [u64],
}

impl Query<Pending> for OfOneLock<'_> {
    ghost passes = { λ q p. is_of_one q.locks.now p };

    ghost ranges = { λ q. lock_ranges q.locks.now };

    ghost covers = { λ q p on. locks_cover q.locks.now p on };

    fn passes(&self, pending: &Pending) -> bool {
        is_one(self.locks, pending.row.posse)
    }

    fn range_count(&self) -> usize {
        self.locks.len()
    }

    fn range(&self, at: usize) -> ((u64, i64), i64) {
        lock_range(self.locks, at)
    }
}
