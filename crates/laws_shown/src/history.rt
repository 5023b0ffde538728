//! What the publications put at an instant and did not take away, and what a book shows of it.

ghost use Rattle.laws_shown.specs.History.{ContentsAreCounted, ContentsArePut, SoundContentsAreCounted, SoundShowsWhatWasPut};

/// The contents at an instant are the roots that a publication added and none after it took away there.
pub fn contents_are_put()
    ensures { ContentsArePut }
{}

/// Where no id is added twice, a root is counted once where it is in the contents, and never more often.
pub fn contents_are_counted()
    ensures { ContentsAreCounted }
{}

/// In a sound book a root is counted once where it is in the contents, and never more often.
pub fn sound_contents_are_counted()
    ensures { SoundContentsAreCounted }
{}

/// A sound book shows a root at an instant exactly where a publication added it and none after it took it away
/// there, and shows it once.
pub fn sound_shows_what_was_put()
    ensures { SoundShowsWhatWasPut }
{}
