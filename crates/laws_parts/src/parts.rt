//! What determines the timeline and the contents of a source.

ghost use Rattle.laws_parts.specs.Laws.{ContentsAreDetermined, ContentsAreSo, TimelineIsDetermined, TimelineIsSo};

/// A list of parts that ascend, that show at each instant the visible chunk, and of which no two touch and agree, is the
/// timeline.
pub fn timeline_is_determined()
    ensures { TimelineIsDetermined }
{}

/// The timeline is such a list.
pub fn timeline_is_so()
    ensures { TimelineIsSo }
{}

/// A list of parts that ascend, that show at each instant the roots that are shown, and of which no two touch and agree, is
/// the contents.
pub fn contents_are_determined()
    ensures { ContentsAreDetermined }
{}

/// The contents are such a list.
pub fn contents_are_so()
    ensures { ContentsAreSo }
{}
