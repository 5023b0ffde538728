//! Worked cases of the laws, on a day of commands: in each what a law asks for is there, and what it says is seen.

ghost use Rattle.cases_shown.specs.SoundCases.{AskedDay, PendingWaits, PrintedDay, ShownAfterAppend, ShownDay, SoundDay, SplitDay};

/// The books before and after a replacement are sound.
pub fn sound_day()
    ensures { SoundDay }
{}

/// After it an append from before its lock isn't shown any more, and one since is shown once.
pub fn shown_day()
    ensures { ShownDay }
{}

/// The timeline and the contents after it.
pub fn printed_day()
    ensures { PrintedDay }
{}

/// What the replacement is answered that it has to read.
pub fn asked_day()
    ensures { AskedDay }
{}

/// What it reads and what it carries.
pub fn split_day()
    ensures { SplitDay }
{}

/// A pending waits while its lock is valid and its id isn't added.
pub fn pending_waits()
    ensures { PendingWaits }
{}

/// An append is shown until the replacement takes it away.
pub fn shown_after_append()
    ensures { ShownAfterAppend }
{}
