//! Worked cases: the premises of the laws are met, and their conclusions are so.

ghost use Rattle.cases_streams.specs.SequenceCases.{IdsAreOwn, LineGoesOn, NamesAreTexts, NamesTell, ReplicaLeaves, ReplicasTell, SequencesAreInLine, SoundIsInLine, SoundTickAdds, StatesChange, TickAddsNewIds, TickKeepsTwoLocks};

/// The names of sequences and of replicas are texts as `sup:w:0:12` and `sup:w:0:12:1`.
pub fn names_are_texts()
    ensures { NamesAreTexts }
{}

/// A sequence's row has the name of its source, group and index, and others have other names.
pub fn names_tell()
    ensures { NamesTell }
{}

/// Replicas of other sequences, and of other numbers, have other ids.
pub fn replicas_tell()
    ensures { ReplicasTell }
{}

/// Commands that keep their form lead to a book with sequences in line: the second of a group starts
/// where the first ends.
pub fn sequences_are_in_line()
    ensures { SequencesAreInLine }
{}

/// After the first is published, the second starts at the offsets that are stored then.
pub fn line_goes_on()
    ensures { LineGoesOn }
{}

/// The book is sound, and its sequences are in line.
pub fn sound_is_in_line()
    ensures { SoundIsInLine }
{}

/// Each of its tasks is a replica of one of its sequences.
pub fn ids_are_own()
    ensures { IdsAreOwn }
{}

/// A tick that opens a sequence adds its replicas beside those that are there.
pub fn tick_adds_new_ids()
    ensures { TickAddsNewIds }
{}

/// So does one in a sound book.
pub fn sound_tick_adds()
    ensures { SoundTickAdds }
{}

/// A tick adds tasks beside one that holds two locks, which stay.
pub fn tick_keeps_two_locks()
    ensures { TickKeepsTwoLocks }
{}

/// What publishing, pausing, closing, abandoning, resetting and ticks make of the states.
pub fn states_change()
    ensures { StatesChange }
{}

/// A replica that ends leaves its sequence; the others list their tasks that haven't ended.
pub fn replica_leaves()
    ensures { ReplicaLeaves }
{}
