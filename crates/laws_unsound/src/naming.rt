//! The two ways in which most clauses name a row.

ghost use Rattle.laws_unsound.specs.Named.{FirstClashingIsLeast, FirstFailingIsLeast};

/// Of rows that a test refuses the least is named, and none where it refuses none.
pub fn first_failing_is_least<X>()
    ensures { FirstFailingIsLeast X }
{}

/// Of rows that clash with another the least is named, and none where no two clash.
pub fn first_clashing_is_least<X>()
    ensures { FirstClashingIsLeast X }
{}
