//! What upgrade rows are looked for by.
ghost use Rattle.std.specs.Prelude.{◌≡◌, ◌==◌, [], ◌∷◌, find};
ghost use Rattle.std.specs.Option.{option_copied};
ghost use Rattle.row_index.specs.Index.{digest_range};
ghost use Rattle.span_keys.specs.Classes.{span_ranges};
ghost use Rattle.tab_pending.specs.Keys.{carry_digest, carry_ranges, lock_digest};
ghost use Rattle.tab_pending.specs.Searches.{MeetsAll, is_taken_over, is_upgrade_across};
ghost use Rattle.tab_pending.specs.Covers.{taken_covers, upgrade_across_covers, upgrade_covers};

use crate::keys::{Upgrade, carry_digest, lock_digest};
use crate::ranges::{carry_count, carry_range, is_one};
use apart_spans::{SpanList, hull};
use book_rows::UpgradeRow;
use iv_span::Span;
use row_index::{Query, digest_range};
use row_table::RowTable;
use span_keys::{RANGES, span_range};

/// The upgrade rows of a lock.
#[derive(Drop)]
pub struct UpgradeOf {
    pub lock: u64,
}

impl Query<Upgrade> for UpgradeOf {
    ghost passes = { λ q u. u.posse == q.lock };

    ghost ranges = { λ q. digest_range (lock_digest q.lock) ∷ [] };

    ghost covers = { λ q u on. upgrade_covers q.lock u on };

    fn passes(&self, upgrade: &Upgrade) -> bool {
        upgrade.row.posse == self.lock
    }

    fn range_count(&self) -> usize {
        1
    }

    fn range(&self, _at: usize) -> ((u64, i64), i64) {
        digest_range(lock_digest(self.lock))
    }
}

fn is_taken_over(row: &UpgradeRow, lock: u64, span: Span) -> bool
    ensures { result ≡ is_taken_over lock span row.now }
{
    row.root.span.overlaps(span) && row.posse == lock && span.contains(row.root.span)
}

/// The upgrade rows of a lock whose roots lie in a span, which they overlap.
#[derive(Drop)]
pub struct UpgradeWithin {
    pub lock: u64,
    pub span: Span,
}

impl Query<Upgrade> for UpgradeWithin {
    ghost passes = { λ q u. is_taken_over q.lock q.span u };

    ghost ranges = { λ q. span_ranges (carry_digest q.lock) q.span };

    ghost covers = { λ q u on. taken_covers q.lock q.span u on };

    fn passes(&self, upgrade: &Upgrade) -> bool {
        is_taken_over(&upgrade.row, self.lock, self.span)
    }

    fn range_count(&self) -> usize {
        RANGES
    }

    fn range(&self, at: usize) -> ((u64, i64), i64) {
        span_range(carry_digest(self.lock), self.span, at)
    }
}

fn is_across(row: &UpgradeRow, locks: &[u64], spans: &SpanList<'_>) -> bool
    ensures { result ≡ is_upgrade_across locks.now spans.now row.now }
{
    // Of the rows that a range leads to, most lie within a span: the locks are looked at last.
    spans.straddles(row.root.span) && is_one(locks, row.posse)
}

/// The upgrade rows of one of these locks, whose roots overlap one of these spans and don't lie
/// within it.
#[derive(Drop)]
struct UpgradeAcross<'a> {
    locks: &'a [u64],
    spans: SpanList<'a>,
    hull: Span,
    ghost within: { MeetsAll hull spans },
}

// Of each lock the ranges over all the spans together: of as many locks as spans, a range for each
// lock and span would be too many.
impl Query<Upgrade> for UpgradeAcross<'_> {
    ghost passes = { λ q u. is_upgrade_across q.locks.now q.spans u };

    ghost ranges = { λ q. carry_ranges q.locks.now q.hull };

    ghost covers = { λ q u on. upgrade_across_covers q.locks.now q.spans q.hull q.within u on };

    fn passes(&self, upgrade: &Upgrade) -> bool {
        is_across(&upgrade.row, self.locks, &self.spans)
    }

    fn range_count(&self) -> usize {
        carry_count(self.locks, self.hull)
    }

    fn range(&self, at: usize) -> ((u64, i64), i64) {
        carry_range(self.locks, self.hull, at)
    }
}

fn first_within<'a>(
    upgrades: &'a RowTable<Upgrade>,
    locks: &[u64],
    spans: &[Span],
    hull: Span,
) -> Option<&'a UpgradeRow>
    requires { MeetsAll hull spans.now }
    ensures { option_copied result ≡ find (is_upgrade_across locks.now spans.now) upgrades.now }
{
    let spans = SpanList::new(spans);
    match upgrades.first(&UpgradeAcross { locks, spans, hull }) {
        Some(upgrade) => Some(&upgrade.row),
        None => None,
    }
}

/// The first upgrade row of one of the locks, whose root overlaps one of the spans and doesn't lie
/// within it.
pub fn first_across<'a>(
    upgrades: &'a RowTable<Upgrade>,
    locks: &[u64],
    spans: &[Span],
) -> Option<&'a UpgradeRow>
    ensures { option_copied result ≡ find (is_upgrade_across locks.now spans.now) upgrades.now }
{
    match hull(spans) {
        Some(all) => first_within(upgrades, locks, spans, all),
        None => None,
    }
}
