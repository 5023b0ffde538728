//! Ranges of several locks, and of several spans.
ghost use Rattle.std.specs.Prelude.{◌≡◌, ◌<◌, ◌*◌, Some, length, slice_get};
ghost use Rattle.book_rows.specs.Lists.{stands_in};
ghost use Rattle.tab_pending.specs.Keys.{carry_ranges, lock_ranges, ranges_over};

use crate::keys::{carry_digest, lock_digest};
use iv_span::Span;
use row_index::digest_range;
use span_keys::{RANGES, span_range};

/// Whether the number is one of these.
pub fn is_one(locks: &[u64], number: u64) -> bool
    ensures { result ≡ stands_in locks.now number }
{
    locks.iter().any(|lock| *lock == number)
}

fn lock_at(locks: &[u64], at: usize) -> u64
    requires { at < length locks.now }
    ensures { slice_get locks.now at ≡ Some result }
{
    locks[at]
}

/// The range of the lock at that place.
pub fn lock_range(locks: &[u64], at: usize) -> ((u64, i64), i64)
    requires { at < length (lock_ranges locks.now) }
    ensures { slice_get (lock_ranges locks.now) at ≡ Some result }
{
    digest_range(lock_digest(lock_at(locks, at)))
}

fn span_at(spans: &[Span], at: usize) -> Span
    requires { at < length spans.now }
    ensures { slice_get spans.now at ≡ Some result }
{
    spans[at]
}

/// How many ranges spans have.
pub fn range_count(spans: &[Span], digest: u64) -> usize
    ensures { result ≡ length (ranges_over digest spans.now) }
{
    spans.len() * RANGES
}

/// The range at that place, of the digest and these spans.
pub fn range_over(digest: u64, spans: &[Span], at: usize) -> ((u64, i64), i64)
    requires { at < length (ranges_over digest spans.now) }
    ensures { slice_get (ranges_over digest spans.now) at ≡ Some result }
{
    let span = span_at(spans, at / RANGES);
    span_range(digest, span, at % RANGES)
}

/// How many ranges locks have over a span.
pub fn carry_count(locks: &[u64], span: Span) -> usize
    ensures { result ≡ length (carry_ranges locks.now span) }
{
    locks.len() * RANGES
}

/// The range at that place, of upgrade rows of these locks over the span.
pub fn carry_range(locks: &[u64], span: Span, at: usize) -> ((u64, i64), i64)
    requires { at < length (carry_ranges locks.now span) }
    ensures { slice_get (carry_ranges locks.now span) at ≡ Some result }
{
    let lock = lock_at(locks, at / RANGES);
    span_range(carry_digest(lock), span, at % RANGES)
}
