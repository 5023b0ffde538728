//! What a change of kept parts is.

ghost use Rattle.timeline_kept.specs.Laws.{ChangedIsTimeline};

/// Where outside of some spans the same chunks are visible before and after, the parts of the timeline,
/// changed in these spans to what the used rows over them give, are those of the timeline afterwards.
pub fn changed_is_timeline()
    ensures { ChangedIsTimeline }
{}
