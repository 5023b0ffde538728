//! Bytes that are no book's, and the places at which they don't read.

ghost use Rattle.cases_snapshots.specs.PlaceCases.{ShortHasPlace, LongHasPlace, TextHasPlace, CodeHasPlace, SpanHasPlace, NoTombstonesHavePlace};

/// No bytes don't read at 0, and a number of which bytes are missing doesn't read at its first one.
pub fn short_has_place()
    ensures { ShortHasPlace }
{}

/// Bytes behind the book are told at the first of them.
pub fn long_has_place()
    ensures { LongHasPlace }
{}

/// A text that is no name doesn't read at its length.
pub fn text_has_place()
    ensures { TextHasPlace }
{}

/// A code that there isn't is told at its own byte.
pub fn code_has_place()
    ensures { CodeHasPlace }
{}

/// A span whose start isn't below its end doesn't read at its start, and one that lacks bytes of its end
/// at its end.
pub fn span_has_place()
    ensures { SpanHasPlace }
{}

/// An empty list of tombstones under a code that has some doesn't read at its count.
pub fn no_tombstones_have_place()
    ensures { NoTombstonesHavePlace }
{}
