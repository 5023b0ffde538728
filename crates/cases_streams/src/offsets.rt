//! Cases in which the premises of the laws are met, with what the laws say of them.

ghost use Rattle.cases_streams.specs.OffsetCases.{BookHasShape, BookTiles, DropIsTaken, EachOffsetOnce, EmptyIsTiled, EndIsTaken, EndsAreStored, FaultIsSeen, FirstFaultIsTold, GapEndsNowhere, ListedIsStored, NamesGoOn, NoResetIsFound, PublishIsRefused, PublishIsTaken, RangesStartThere, ResetIsTaken, ResetsAreFound, ShapeGoesOn, TilesGoOn};

/// Nothing is published in the empty book, and nothing is stored.
pub fn empty_is_tiled()
    ensures { EmptyIsTiled }
{}

/// Commands that keep their form read a stream, reset it and read on: the ranges since the reset end
/// at the stored offset.
pub fn book_tiles()
    ensures { BookTiles }
{}

/// Ranges that leave a gap don't tile.
pub fn gap_ends_nowhere()
    ensures { GapEndsNowhere }
{}

/// After one publish more the ranges end at the offset that is stored then.
pub fn tiles_go_on()
    ensures { TilesGoOn }
{}

/// Each offset from the reset's up to the stored one lies in one range, the one below and the stored
/// one in none; a partition without ranges has no stored offset.
pub fn each_offset_once()
    ensures { EachOffsetOnce }
{}

/// Before the reset the run of a partition has all its ranges.
pub fn no_reset_is_found()
    ensures { NoResetIsFound }
{}

/// The book's publications are those before the reset, the reset, and those since, none of which
/// resets the stream; the run has the ranges since, from where the reset says.
pub fn resets_are_found()
    ensures { ResetsAreFound }
{}

/// No fault is found of three ranges that go on, and one is of two of which one doesn't.
pub fn fault_is_seen()
    ensures { FaultIsSeen }
{}

/// Of several ranges the fault of the first that doesn't go on is told.
pub fn first_fault_is_told()
    ensures { FirstFaultIsTold }
{}

/// A publish that goes on from the stored offset changes the book: its ends are stored, and one
/// publication more has its ranges.
pub fn publish_is_taken()
    ensures { PublishIsTaken }
{}

/// One of its ranges starts at what is stored, and nothing is stored where the other starts.
pub fn ranges_start_there()
    ensures { RangesStartThere }
{}

/// After it the ends of its ranges are stored, and what was, of other partitions, streams and sources.
pub fn ends_are_stored()
    ensures { EndsAreStored }
{}

/// One that starts below the stored offset is refused, and the book is as it was.
pub fn publish_is_refused()
    ensures { PublishIsRefused }
{}

/// A reset leaves the offsets that it lists, and no others of its stream; one publication more lists them.
pub fn reset_is_taken()
    ensures { ResetIsTaken }
{}

/// After it a partition that it lists has what it lists, and another has nothing; after a reset of
/// another stream both have what they had.
pub fn listed_is_stored()
    ensures { ListedIsStored }
{}

/// A drop changes the book, and leaves the offsets; one publication more has no ranges.
pub fn drop_is_taken()
    ensures { DropIsTaken }
{}

/// A task's end changes the book, and leaves offsets and publications.
pub fn end_is_taken()
    ensures { EndIsTaken }
{}

/// The book is in shape, so its offsets and ranges are.
pub fn book_has_shape()
    ensures { BookHasShape }
{}

/// Commands that keep their form lead to it; they are in shape after one publish more.
pub fn shape_goes_on()
    ensures { ShapeGoesOn }
{}

/// A task more, and a supervisor more, have names as sources.
pub fn names_go_on()
    ensures { NamesGoOn }
{}
