//! Books that keep the soundness rules.

ghost use Rattle.cases_rules.specs.SoundBookCases.{SoundAfterRevocation, SoundUnderLock, SoundAfterReplacement, ShownAfterReplacement, ShownOfTombstones, UpgradeRowsAreWhatWasAdded, RangesTile, ReplacingGoesWithAppending, SequencesGoOn};

/// The book after a revocation and a conflict is sound.
pub fn sound_after_revocation()
    ensures { SoundAfterRevocation }
{}

/// The book of a stream under a replacing lock, with an upgrade row and a pending, is sound.
pub fn sound_under_lock()
    ensures { SoundUnderLock }
{}

/// The book after the replacement is sound.
pub fn sound_after_replacement()
    ensures { SoundAfterReplacement }
{}

/// What is shown of a root is what was published of it.
pub fn shown_after_replacement()
    ensures { ShownAfterReplacement }
{}

/// Of tombstones and of what was dropped nothing is shown.
pub fn shown_of_tombstones()
    ensures { ShownOfTombstones }
{}

/// Before a replacement its upgrade rows are what was added since its lock.
pub fn upgrade_rows_are_what_was_added()
    ensures { UpgradeRowsAreWhatWasAdded }
{}

/// Ranges tile each partition up to its stored offset.
pub fn ranges_tile()
    ensures { RangesTile }
{}

/// The valid locks of an appending and a replacing task go together.
pub fn replacing_goes_with_appending()
    ensures { ReplacingGoesWithAppending }
{}

/// The sequences of a group go on from one another.
pub fn sequences_go_on()
    ensures { SequencesGoOn }
{}
