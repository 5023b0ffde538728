//! What each command makes of the publications and of the stored offsets.

ghost use Rattle.laws_offsets.specs.Effects.{DropLeavesOffsets, OthersLeaveOffsets, PublishGoesOn, RangesStartAtStored, RefusedLeavesBook, ResetReplaces};

/// An append, an insert or a replace that changes the book has ranges that go on from the stored
/// offsets; their ends are stored, and one publication more has them.
pub fn publish_goes_on()
    ensures { PublishGoesOn }
{}

/// Each of its ranges starts at the stored offset, where there is one, and doesn't end before it.
pub fn ranges_start_at_stored()
    ensures { RangesStartAtStored }
{}

/// One whose ranges don't go on from the stored offsets leaves the book as it was.
pub fn refused_leaves_book()
    ensures { RefusedLeavesBook }
{}

/// A reset that changes the book stores its offsets in place of those of its stream.
pub fn reset_replaces()
    ensures { ResetReplaces }
{}

/// A drop that changes the book adds a publication without ranges, and leaves the stored offsets.
pub fn drop_leaves_offsets()
    ensures { DropLeavesOffsets }
{}

/// Every other command leaves the publications and the stored offsets.
pub fn others_leave_offsets()
    ensures { OthersLeaveOffsets }
{}
