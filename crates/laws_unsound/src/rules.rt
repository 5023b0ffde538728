//! Each rule's row: the least that breaks it, and none exactly where it holds.

ghost use Rattle.laws_unsound.specs.Laws.{IsRowOfChunkRule, IsRowOfRule};
ghost use Rattle.laws_unsound.specs.Unsound.{BelowLocks, Carried, Compatible, Copied, InSequence, OneSpan, Rooted, Shape, Shown, Tiled, Whole};

/// Of all clauses of the shape together.
pub fn shape_row()
    ensures { IsRowOfRule Shape }
{}

/// Of locks: the first that isn't compatible with another.
pub fn compatible_row()
    ensures { IsRowOfRule Compatible }
{}

/// Of live chunks: the first that overlaps another of its version.
pub fn one_span_row()
    ensures { IsRowOfChunkRule OneSpan }
{}

/// Of live chunks: the first above a lock that guards.
pub fn below_locks_row()
    ensures { IsRowOfChunkRule BelowLocks }
{}

/// Of pendings and upgrade rows.
pub fn rooted_row()
    ensures { IsRowOfRule Rooted }
{}

/// Of chunks: the first whose core isn't what it has to be.
pub fn whole_row()
    ensures { IsRowOfRule Whole }
{}

/// Of live chunks: the first of two of which the upper has no core or lacks a copy.
pub fn copied_row()
    ensures { IsRowOfChunkRule Copied }
{}

/// Of locks: the first replacing one whose upgrade rows aren't what it has to carry.
pub fn carried_row()
    ensures { IsRowOfRule Carried }
{}

/// What is shown has no row of its own.
pub fn shown_row()
    ensures { IsRowOfRule Shown }
{}

/// Stored offsets have no row of their own here.
pub fn tiled_row()
    ensures { IsRowOfRule Tiled }
{}

/// Nor have sequences.
pub fn sequence_row()
    ensures { IsRowOfRule InSequence }
{}
