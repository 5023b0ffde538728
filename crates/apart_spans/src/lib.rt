//! Lists of spans, in which those that overlap a span are found.
//!
//! Of spans that ascend and don't overlap, one alone can decide, and it is found by bisection.
//! Nothing is asked of other spans: each of them is looked at.
#![tactic(auto)]

ghost use Rattle.std.specs.Prelude.{◌&&◌, ◌∷◌, ◌≡◌, IfNone, IfSome, [], false, int_le, not, slice_get, true};
ghost use Rattle.std.specs.List.{list_any};
ghost use Rattle.std.specs.List.Sorted.{IsPartitionPoint};
ghost use Rattle.iv_span.specs.Extent.{covers, overlap};
ghost use Rattle.apart_spans.specs.Apart.{Bounds, are_apart, is_before, joined, passes_at};

use iv_span::Span;
use std::marker::Model;

// ---- spans that are apart

fn is_before(left: Span, right: Span) -> bool
    ensures { result ≡ is_before left right }
{
    // No span is empty.
    let _start = left.start();
    left.end() <= right.start()
}

fn is_alone_apart(last: Span) -> bool
    ensures { result ≡ are_apart (last ∷ []) }
{
    last.start() < last.end()
}

// Whether each of the spans ends before the next begins.
fn are_apart(spans: &[Span]) -> bool
    ensures { result ≡ are_apart spans.now }
{
    let Some((first, rest)) = spans.split_first() else {
        return true;
    };
    let mut last = *first;
    for span in rest {
        if !is_before(last, *span) {
            return false;
        }
        last = *span;
    }
    is_alone_apart(last)
}

// The place of the first span that doesn't end before this one begins.
fn place_of(spans: &[Span], span: Span) -> usize
    requires { are_apart spans.now ≡ true }
    ensures { IsPartitionPoint (λ s. int_le s.end span.start ≡ true) (λ s. int_le s.end span.start ≡ false) spans.now result }
{
    spans.partition_point(|listed| listed.end() <= span.start())
}

fn span_at(spans: &[Span], at: usize) -> Option<Span>
    ensures { result ≡ slice_get spans.now at }
{
    spans.get(at).copied()
}

// The span that alone can overlap this one and not contain it: the first that ends behind its start.
// Where it ends behind this one's end too, no later one overlaps this one.
fn nearest(spans: &[Span], span: Span) -> Option<Span>
    requires { are_apart spans.now ≡ true }
    ensures overlaps { list_any (λ s. overlap s span) spans.now ≡ passes_at (λ s. overlap s span) result }
    ensures straddles { list_any (λ s. overlap s span && not (covers s span)) spans.now ≡ passes_at (λ s. overlap s span && not (covers s span)) result }
{
    span_at(spans, place_of(spans, span))
}

// ---- lists

fn straddles(one: Span, span: Span) -> bool
    ensures { result ≡ (overlap one span && not (covers one span)) }
{
    one.overlaps(span) && !one.contains(span)
}

fn overlaps_some(one: Option<Span>, span: Span) -> bool
    ensures { result ≡ passes_at (λ s. overlap s span) one }
{
    match one {
        Some(one) => one.overlaps(span),
        None => false,
    }
}

fn straddles_some(one: Option<Span>, span: Span) -> bool
    ensures { result ≡ passes_at (λ s. overlap s span && not (covers s span)) one }
{
    match one {
        Some(one) => straddles(one, span),
        None => false,
    }
}

fn any_overlaps(spans: &[Span], span: Span) -> bool
    ensures { result ≡ list_any (λ s. overlap s span) spans.now }
{
    spans.iter().any(|one| one.overlaps(span))
}

fn any_straddles(spans: &[Span], span: Span) -> bool
    ensures { result ≡ list_any (λ s. overlap s span && not (covers s span)) spans.now }
{
    spans.iter().any(|one| straddles(*one, span))
}

/// Spans among which those that overlap a span are looked for. Contracts see the list of them.
#[derive(Drop)]
pub struct SpanList<'a> {
    spans: &'a [Span],
    apart: bool,
}

impl<'a> Model for SpanList<'a> {
    ghost use Rattle.std.specs.Prelude.{◌≡◌, List, true};
    ghost use Rattle.iv_span.specs.Extent.{Extent};
    ghost use Rattle.apart_spans.specs.Apart.{are_apart};

    ghost Value = { List Extent };

    ghost view = { λ a. a.spans.now };

    ghost invariant = { λ a. a.apart ≡ true → are_apart a.spans.now ≡ true };
}

impl<'a> SpanList<'a> {
    /// These spans. Whether they are apart is told once, in one pass.
    pub fn new(spans: &'a [Span]) -> SpanList<'a>
        ensures { result ≡ spans.entry.now }
    {
        SpanList {
            spans,
            apart: are_apart(spans),
        }
    }

    /// The spans.
    pub fn spans(&self) -> &'a [Span]
        ensures { result.now ≡ self.now }
    {
        self.spans
    }

    /// Whether one of the spans overlaps this one.
    pub fn overlaps(&self, span: Span) -> bool
        ensures { result ≡ list_any (λ s. overlap s span) self.now }
    {
        if self.apart {
            overlaps_some(nearest(self.spans, span), span)
        } else {
            any_overlaps(self.spans, span)
        }
    }

    /// Whether this span overlaps one of the spans and doesn't lie within it.
    pub fn straddles(&self, span: Span) -> bool
        ensures { result ≡ list_any (λ s. overlap s span && not (covers s span)) self.now }
    {
        if self.apart {
            straddles_some(nearest(self.spans, span), span)
        } else {
            any_straddles(self.spans, span)
        }
    }
}

// ---- the span from the first start to the last end

// The least span that contains both.
fn joined(left: Span, right: Span) -> Span
    ensures { result ≡ joined left right }
{
    let start = left.start().min(right.start());
    let end = left.end().max(right.end());
    match Span::new(start, end) {
        Ok(span) => span,
        Err(_) => left,
    }
}

/// The least span that contains all of these. Without spans there is none.
pub fn hull(spans: &[Span]) -> Option<Span>
    ensures bounds { IfSome result (λ h. Bounds h spans.now) }
    ensures none { IfNone result (spans.now ≡ []) }
{
    let mut all = *spans.first()?;
    for span in spans {
        all = joined(all, *span);
    }
    Some(all)
}
