//! The soundness rule on supervisors' sequences, as a whole.

ghost use Rattle.laws_sequences.specs.SoundLaws.{CommandsKeepSequences, SequencesStaySound, SoundKeepsSequences};

/// Every command that keeps its form keeps the whole rule on supervisors' sequences, with the
/// limits and keys that it reads.
pub fn commands_keep_sequences()
    ensures { CommandsKeepSequences }
{}

/// So after a command on a sound book the rule holds.
pub fn sound_keeps_sequences()
    ensures { SoundKeepsSequences }
{}

/// It holds of each book that commands that keep their form reach from the book without rows.
pub fn sequences_stay_sound()
    ensures { SequencesStaySound }
{}
