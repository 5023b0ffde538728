//! What a replacement has to read and to carry.

ghost use Rattle.laws_shown.specs.Carrying.{ReadsInOrder, SoundReadsWhatWasThere, SoundSplitsContents};

/// The roots that a replacement has to read are those that the contents have at some instant of the lock's span and
/// that were added before the lock was made.
pub fn sound_reads_what_was_there()
    ensures { SoundReadsWhatWasThere }
{}

/// They stand in id order, each once.
pub fn reads_in_order()
    ensures { ReadsInOrder }
{}

/// At an instant of a valid replacing lock's span that it doesn't cover yet, each root of the contents is read or has one upgrade row
/// of the lock, and not both; and no such row has another root there.
pub fn sound_splits_contents()
    ensures { SoundSplitsContents }
{}
