//! Books at the first and the last instants.

ghost use Rattle.cases_texts.specs.EdgeCases.{FirstHourHasTexts, LastHourHasTexts, LastMinuteHasNoBucket, PastEndHasNone, UnsoundHasNone};

/// In the last hour that there is a lock gets the last version; what is inserted and allocated under
/// it and shown of it has texts, and the next lock gets no version.
pub fn last_hour_has_texts()
    ensures { LastHourHasTexts }
{}

/// No bucket of the last instant ends at an instant, and the refusal names that instant.
pub fn last_minute_has_no_bucket()
    ensures { LastMinuteHasNoBucket }
{}

/// An id is allocated in the first hour that there is.
pub fn first_hour_has_texts()
    ensures { FirstHourHasTexts }
{}

/// A lock up to the instant after the last, which no sound book has, is shown without a text.
pub fn unsound_has_none()
    ensures { UnsoundHasNone }
{}

/// A span up to that instant, which no command has that keeps its form, is refused without a text.
pub fn past_end_has_none()
    ensures { PastEndHasNone }
{}
