//! What every book shows, carries and prints that commands reach.

ghost use Rattle.laws_sound.specs.Reached.{AppendedStaysShown, ReachedAnswersAreReadings, ReachedAskOneLock, ReachedContentsAreWhatWasPut, ReachedReadWhatWasThere, ReachedShowWhatWasPut, ReachedSplitContents, ReachedTimelineIsWhatWasPut};

/// A root is shown at an instant exactly where a publication of the source added it and none after
/// took it away there, and it is shown once.
pub fn reached_show_what_was_put()
    ensures { ReachedShowWhatWasPut }
{}

/// A part of the timeline shows a root at an instant exactly there, and then one part does, by one row.
pub fn reached_timeline_is_what_was_put()
    ensures { ReachedTimelineIsWhatWasPut }
{}

/// A part of the contents lists a root at an instant exactly there, and then one part does.
pub fn reached_contents_are_what_was_put()
    ensures { ReachedContentsAreWhatWasPut }
{}

/// The roots that a replacement has to read are those that the contents have at some instant of the
/// lock's span and that were added before the lock was made.
pub fn reached_read_what_was_there()
    ensures { ReachedReadWhatWasThere }
{}

/// At an instant that a valid replacing lock doesn't cover yet, each root of the contents is read or
/// has one upgrade row of the lock, and not both; and no such row has another root there.
pub fn reached_split_contents()
    ensures { ReachedSplitContents }
{}

/// `to_replace` answers a list of roots only to a running task that is a member of no revoked lock of
/// its source that overlaps the span, and of a valid replacing lock of its source that contains it.
/// The list has, in id order, the roots to read under that lock.
pub fn reached_answers_are_readings()
    ensures { ReachedAnswersAreReadings }
{}

/// A task may ask of a span that isn't empty under one lock only.
pub fn reached_ask_one_lock()
    ensures { ReachedAskOneLock }
{}

/// Each id of an append that changes the book is shown once, whatever commands that keep their form
/// follow, at each instant of its span at which no later publication takes it away.
pub fn appended_stays_shown()
    ensures { AppendedStaysShown }
{}
