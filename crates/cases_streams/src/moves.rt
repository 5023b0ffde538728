//! Worked cases of the small changes: sequences that are linked are linked after each.

ghost use Rattle.cases_streams.specs.MoveCases.{AbandoningIsSeen, EndIsSeen, OpeningIsSeen, OtherResetIsSeen, PauseIsSeen, PublicationIsSeen, ReportIsSeen, ResetIsSeen, TickIsSeen};

/// A reading sequence pauses after its hour.
pub fn pause_is_seen()
    ensures { PauseIsSeen }
{}

/// A replica reports, and its sequence pauses; the other reports, and it closes.
pub fn report_is_seen()
    ensures { ReportIsSeen }
{}

/// A replica ends; the last one ends, and its sequence and the later one are abandoned.
pub fn end_is_seen()
    ensures { EndIsSeen }
{}

/// A group's sequences are abandoned from the second on.
pub fn abandoning_is_seen()
    ensures { AbandoningIsSeen }
{}

/// The closed sequence is published, and the next one starts at what is stored then.
pub fn publication_is_seen()
    ensures { PublicationIsSeen }
{}

/// The stream is reset, and no unpublished sequence is left.
pub fn reset_is_seen()
    ensures { ResetIsSeen }
{}

/// Another stream is reset, and the sequences stay.
pub fn other_reset_is_seen()
    ensures { OtherResetIsSeen }
{}

/// A sequence opens where the closed one ends.
pub fn opening_is_seen()
    ensures { OpeningIsSeen }
{}

/// A tick an hour later abandons late sequences, opens one, and pauses another.
pub fn tick_is_seen()
    ensures { TickIsSeen }
{}
