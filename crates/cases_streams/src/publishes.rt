//! Worked cases of what the publishes of replicas are answered.

ghost use Rattle.cases_streams.specs.PublishCases.{FirstIsNext, LineKnowsNoStream, NumberIsItsPlace, NumberIsOne, PublishesAreAnswered, RangesAreItsOwn, ReachedIsSeen, RepeatIsOnStream, StreamIsItsOwn};

/// Other ranges, and another stream, are refused, and both replicas are answered one number.
pub fn publishes_are_answered()
    ensures { PublishesAreAnswered }
{}

/// A publish that is accepted, and the one that repeats it, have the sequence's ranges.
pub fn ranges_are_its_own()
    ensures { RangesAreItsOwn }
{}

/// The one that is accepted is on the supervisor's stream.
pub fn stream_is_its_own()
    ensures { StreamIsItsOwn }
{}

/// So is its publication, which stays so, and the one that repeats it.
pub fn repeat_is_on_stream()
    ensures { RepeatIsOnStream }
{}

/// That sequences are in line says nothing of the stream of a publication: one on another stream may be
/// there, and a publish that repeats it is answered.
pub fn line_knows_no_stream()
    ensures { LineKnowsNoStream }
{}

/// The number is the publication's place, which stays when another follows; the sequence has no other.
pub fn number_is_its_place()
    ensures { NumberIsItsPlace }
{}

/// Both publishes are answered one number, with other commands between.
pub fn number_is_one()
    ensures { NumberIsOne }
{}

/// The first unpublished sequence is closed, and a publish of its ranges is let through.
pub fn first_is_next()
    ensures { FirstIsNext }
{}

/// All of it, from the book without rows on.
pub fn reached_is_seen()
    ensures { ReachedIsSeen }
{}
