//! A span of time.
ghost use Rattle.std.specs.Prelude.{◌≡◌, ◌<ℤ◌, ◌∷◌, IfOk, IsTrue, IsOk, ◌↔◌};
ghost use Rattle.iv_span.specs.Extent.{Extent, overlap, covers, has, lengthened, SharesInstant, HasAllOf};
ghost use Rattle.iv_span.specs.Condensed.{IsCondensed, StartsRise};

use crate::OutOfMemory;
use std::alloc::Global;
use std::marker::Model;

/// The instants from a start, included, to an end, excluded; the start is below the end, so there
/// is at least one.
#[derive(Clone, Copy, Debug, PartialEq, Eq, PartialOrd, Ord, Hash)]
pub struct Span {
    start: i64,
    end: i64,
}

impl Model for Span {
    ghost use Rattle.std.specs.Prelude.{◌<ℤ◌};
    ghost use Rattle.iv_span.specs.Extent.{Extent};

    ghost Value = { Extent };

    ghost view = { λ a. record { start = a.start; end = a.end } };

    ghost invariant = { λ a. a.start <ℤ a.end };

    ghost inverse = { λ e. record { start = e.start; end = e.end } };
}

/// The start isn't below the end.
#[derive(Clone, Copy, Debug, PartialEq, Eq)]
pub struct EmptySpan;

impl Span {
    /// The span of these ends, in milliseconds.
    pub fn new(start: i64, end: i64) -> Result<Span, EmptySpan>
        ensures value { IfOk result (λ s. s ≡ record { start = start; end = end }) }
        ensures ok { IsOk result ↔ (start <ℤ end) }
    {
        if start < end {
            Ok(Span { start, end })
        } else {
            Err(EmptySpan)
        }
    }

    /// The first instant.
    pub fn start(&self) -> i64
        ensures value { result ≡ self.now.start }
        ensures ordered { self.now.start <ℤ self.now.end }
    {
        self.start
    }

    /// The instant after the last one.
    pub fn end(&self) -> i64
        ensures value { result ≡ self.now.end }
        ensures ordered { self.now.start <ℤ self.now.end }
    {
        self.end
    }

    /// Whether they share an instant.
    pub fn overlaps(&self, other: Span) -> bool
        ensures value { result ≡ overlap self.now other }
        ensures shared { IsTrue result ↔ SharesInstant self.now other }
    {
        self.start < other.end && other.start < self.end
    }

    /// Whether each instant of the other is one of this.
    pub fn contains(&self, other: Span) -> bool
        ensures value { result ≡ covers self.now other }
        ensures all { IsTrue result ↔ HasAllOf self.now other }
    {
        self.start <= other.start && other.end <= self.end
    }

    /// Whether the instant is one of this.
    pub fn has(&self, at: i64) -> bool
        ensures { result ≡ has self.now at }
    {
        self.start <= at && at < self.end
    }

    // The span with its end put off to a later one, where that is later.
    fn lengthened(&self, end: i64) -> Span
        ensures { result ≡ lengthened self.now end }
    {
        Span {
            start: self.start,
            end: self.end.max(end),
        }
    }
}

// Joins the first and the rest, which are in the order of their starts.
fn joined(alloc: Global, first: Span, rest: &[Span]) -> Result<Vec<Span>, OutOfMemory>
    requires { StartsRise (first ∷ rest.now) }
    ensures { IfOk result (λ pieces. IsCondensed (first ∷ rest.now) pieces.items) }
{
    prove!(first.start < first.end);
    let mut pieces = Vec::new(alloc);
    let mut last = first;
    for next in rest {
        if next.start <= last.end {
            last = last.lengthened(next.end);
        } else {
            pieces.push(last)?;
            last = *next;
        }
    }
    pieces.push(last)?;
    Ok(pieces)
}

/// The spans in ascending order, no two of them overlapping or touching, that have the same
/// instants together.
pub fn condense(alloc: Global, spans: &[Span]) -> Result<Vec<Span>, OutOfMemory>
    ensures { IfOk result (λ pieces. IsCondensed spans.now pieces.items) }
{
    let mut sorted = Vec::from_slice(alloc, spans)?;
    sorted.sort()?;
    match sorted.split_first() {
        Some((first, rest)) => joined(alloc, *first, rest),
        None => Ok(Vec::new(alloc)),
    }
}
