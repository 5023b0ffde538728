//! Finitely many instants decide what holds of each.

ghost use Rattle.laws_shown.specs.Ends.{EndsDecide, EndsDecideAll};

/// What depends only on which of finitely many spans have an instant is decided, for all instants of a span, by
/// its start and by the ends that lie within it.
pub fn ends_decide()
    ensures { EndsDecide }
{}

/// For all instants it is decided by the ends of the spans and by one instant before them.
pub fn ends_decide_all()
    ensures { EndsDecideAll }
{}
