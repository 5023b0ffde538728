//! Spans that stand in order.
ghost use Rattle.std.specs.Prelude.{◌≡◌, IfNone, false, int_lt, slice_get, true};
ghost use Rattle.std.specs.List.Sorted.{IsPartitionPoint};
ghost use Rattle.seg_names.specs.Ids.{same_extent};
ghost use Rattle.book_rows.specs.Lists.{list_links};
ghost use Rattle.book_rows.specs.Spans.{first_overlap, is_span_of, span_at_most};
ghost use Rattle.apart_spans.specs.Apart.{are_apart};

use iv_span::Span;

/// Whether both are one span.
pub fn is_same(left: Span, right: Span) -> bool
    ensures { result ≡ same_extent left right }
{
    left.start() == right.start() && left.end() == right.end()
}

/// Whether the second span doesn't come before the first.
pub fn is_at_most(left: Span, right: Span) -> bool
    ensures { result ≡ span_at_most left right }
{
    left.start() < right.start() || (left.start() == right.start() && left.end() <= right.end())
}

/// The first span that overlaps an earlier one.
///
/// Of spans in order that don't overlap, each ends before the next begins, so that an overlap is seen
/// at the span before.
pub fn first_overlap(spans: &[Span]) -> Option<Span>
    requires { list_links span_at_most spans.now ≡ true }
    ensures first { result ≡ first_overlap spans.now }
    ensures apart { IfNone result (are_apart spans.now ≡ true) }
{
    let (first, rest) = spans.split_first()?;
    let mut last = *first;
    for span in rest {
        if span.start() < last.end() {
            return Some(*span);
        }
        last = *span;
    }
    // No span is empty.
    let _start = last.start();
    None
}

// The place of the first span that doesn't begin before this one.
fn place_of(spans: &[Span], span: Span) -> usize
    requires { are_apart spans.now ≡ true }
    ensures { IsPartitionPoint (λ s. int_lt s.start span.start ≡ true) (λ s. int_lt s.start span.start ≡ false) spans.now result }
{
    spans.partition_point(|listed| listed.start() < span.start())
}

fn span_at(spans: &[Span], at: usize) -> Option<Span>
    ensures { result ≡ slice_get spans.now at }
{
    spans.get(at).copied()
}

/// Whether the span is one of these.
pub fn is_listed(spans: &[Span], span: Span) -> bool
    requires { are_apart spans.now ≡ true }
    ensures { result ≡ is_span_of spans.now span }
{
    match span_at(spans, place_of(spans, span)) {
        Some(listed) => is_same(listed, span),
        None => false,
    }
}
