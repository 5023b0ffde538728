//! What the small changes of sequences keep, of which the commands are made.

ghost use Rattle.laws_sequences.specs.MoveLaws.{AbandoningKeepsLinked, EndKeepsLinked, OpeningKeepsLinked, OtherResetKeepsLinked, PauseKeepsLinked, PublicationKeepsLinked, ReportKeepsLinked, ResetKeepsLinked, TickKeepsLinked};

/// A reading sequence whose time is over pauses: the sequences go on from one another after it.
pub fn pause_keeps_linked()
    ensures { PauseKeepsLinked }
{}

/// A replica reports, and its sequence pauses or closes.
pub fn report_keeps_linked()
    ensures { ReportKeepsLinked }
{}

/// A replica ends, and its sequence closes, or is abandoned with the later ones.
pub fn end_keeps_linked()
    ensures { EndKeepsLinked }
{}

/// The unpublished sequences of a group are abandoned, from an index on.
pub fn abandoning_keeps_linked()
    ensures { AbandoningKeepsLinked }
{}

/// The first unpublished sequence of a group is published, and its ends are stored.
pub fn publication_keeps_linked()
    ensures { PublicationKeepsLinked }
{}

/// A stream's offsets are reset, and the source's unpublished sequences are abandoned.
pub fn reset_keeps_linked()
    ensures { ResetKeepsLinked }
{}

/// A stream that no supervisor of the source reads is reset.
pub fn other_reset_keeps_linked()
    ensures { OtherResetKeepsLinked }
{}

/// A sequence is opened where the last closed one ends, or at the stored offsets.
pub fn opening_keeps_linked()
    ensures { OpeningKeepsLinked }
{}

/// A whole tick: late sequences are abandoned, some pause, and new ones open, in all groups.
pub fn tick_keeps_linked()
    ensures { TickKeepsLinked }
{}
