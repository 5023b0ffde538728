//! From an allocation to what is shown.

ghost use Rattle.laws_ids.specs.Allocated.{AllocatedIsReady, SoundAppendedStaysShown};

/// In a sound book each id of an append that changes the book is shown once, whatever commands that keep
/// their form follow, at each instant of its span at which no later publication takes it away.
pub fn sound_appended_stays_shown()
    ensures { SoundAppendedStaysShown }
{}

/// From any sound book on, by commands that keep their form: an id that `allocate` answers waits as
/// long as its lock is valid and no publication added it. While it waits, no append by a member of
/// the lock is refused for it as for an id that isn't allocated. Once an append of it changes the
/// book, it is shown once, whatever such commands follow, at each instant of its span at which no
/// later publication takes it away.
pub fn allocated_is_ready()
    ensures { AllocatedIsReady }
{}
