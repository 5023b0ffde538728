//! Keys and ranges of keys by which spans that overlap are found in an index.
//!
//! A span stands under its class of length and its start, in milliseconds. Spans of a class that
//! overlap a span start less than the class's greatest length before it, so a look-up has one range
//! for each class. Of the spans of a class's greatest length, as the buckets of the calendar are but
//! for months and years, none is visited in vain.
#![tactic(auto)]

ghost use Rattle.std.specs.Prelude.{◌≡◌, ◌<◌, ◌-ℤ◌, ◌≤ℤ◌, Some, pos, slice_get};
ghost use Rattle.span_keys.specs.Classes.{class_digest, class_of_length, range_up_to, span_key, span_ranges};

use iv_span::Span;

/// How many ranges a look-up has: one for each class.
pub const RANGES: usize = 8;

// The class of the span's length.
fn class_of(span: Span) -> u64
    ensures { result ≡ class_of_length (span.end -ℤ span.start) }
{
    match span.end().checked_sub(span.start()) {
        Some(length) => class_of_length(length),
        None => 7,
    }
}

fn class_of_length(length: i64) -> u64
    ensures { result ≡ class_of_length length }
{
    if length <= 60_000 {
        0
    } else if length <= 900_000 {
        1
    } else if length <= 3_600_000 {
        2
    } else if length <= 86_400_000 {
        3
    } else if length <= 604_800_000 {
        4
    } else if length <= 2_678_400_000 {
        5
    } else if length <= 31_622_400_000 {
        6
    } else {
        7
    }
}

// The digest of a class, of which the group in an index is the class.
fn class_digest(digest: u64, class: u64) -> u64
    ensures { result ≡ class_digest digest class }
{
    digest.wrapping_mul(8).wrapping_add(class)
}

/// The key of a span, among those of a digest: of the digest and the class of the span's length,
/// and at the span's start.
pub fn span_key(digest: u64, span: Span) -> (u64, i64)
    ensures { result ≡ span_key digest span }
{
    (
        class_digest(digest, class_of(span)),
        span.start().max(i64::MIN),
    )
}

// The keys of the spans of a class, up to this long, that may overlap the span.
fn range_up_to(digest: u64, span: Span, class: u64, long: i64) -> ((u64, i64), i64)
    requires { pos 1 ≤ℤ long }
    ensures { result ≡ range_up_to digest span class long }
{
    (
        (
            class_digest(digest, class),
            span.start().saturating_sub(long - 1),
        ),
        span.end().max(i64::MIN + 1),
    )
}

/// One of the ranges that have the keys of all spans of the digest that overlap this one, by its
/// place below `RANGES`.
pub fn span_range(digest: u64, span: Span, at: usize) -> ((u64, i64), i64)
    requires { at < 8 }
    ensures { slice_get (span_ranges digest span) at ≡ Some result }
{
    match at {
        0 => range_up_to(digest, span, 0, 60_000),
        1 => range_up_to(digest, span, 1, 900_000),
        2 => range_up_to(digest, span, 2, 3_600_000),
        3 => range_up_to(digest, span, 3, 86_400_000),
        4 => range_up_to(digest, span, 4, 604_800_000),
        5 => range_up_to(digest, span, 5, 2_678_400_000),
        6 => range_up_to(digest, span, 6, 31_622_400_000),
        _ => (
            (class_digest(digest, 7), i64::MIN),
            span.end().max(i64::MIN + 1),
        ),
    }
}
