//! What the printed timeline and contents say of each instant.

ghost use Rattle.laws_shown.specs.Printed.{ContentsAreOfEachInstant, PartsAscend, PrintsInOrder, SoundContentsAreWhatWasPut, SoundTimelineIsWhatWasPut, TimelineIsOfEachInstant};

/// Each part of the timeline gives the version and the ids that are visible at each of its instants, and the parts
/// cover exactly the instants at which something is visible.
pub fn timeline_is_of_each_instant()
    ensures { TimelineIsOfEachInstant }
{}

/// Each part of the contents gives the roots that are shown at each of its instants, and the parts cover exactly the
/// instants at which some root is shown.
pub fn contents_are_of_each_instant()
    ensures { ContentsAreOfEachInstant }
{}

/// Ids and roots are printed in id order, each once.
pub fn prints_in_order()
    ensures { PrintsInOrder }
{}

/// The parts of the timeline and of the contents ascend and don't overlap. Parts of the contents that touch differ in
/// their roots, and those of the timeline in their chunk or their ids.
pub fn parts_ascend()
    ensures { PartsAscend }
{}

/// A part of the timeline of a sound book shows a root at an instant exactly where a publication of the source added it and none
/// after it took it away there, and then one part does, by one row.
pub fn sound_timeline_is_what_was_put()
    ensures { SoundTimelineIsWhatWasPut }
{}

/// A part of the contents of a sound book lists a root at an instant exactly where a publication of the source added it and none
/// after it took it away there, and then one part does.
pub fn sound_contents_are_what_was_put()
    ensures { SoundContentsAreWhatWasPut }
{}
