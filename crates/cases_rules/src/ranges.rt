//! Ranges of streams and stored offsets.

ghost use Rattle.cases_rules.specs.RangeCases.{FirstStartsAnywhere, LeastPartitionIsTold, RefusedMovesNothing, BelowAndAboveAreRefused, StreamsAreApart, IdsAndRangesTogether, InsertsGoOn, ReplacesGoOn, SameResetAgain, RangesAfterReset, OtherStreamsStay, OwnResetForgets, PublicationsOfStream};

/// Where nothing is stored a range starts anywhere.
pub fn first_starts_anywhere()
    ensures { FirstStartsAnywhere }
{}

/// The least partition that fails is told.
pub fn least_partition_is_told()
    ensures { LeastPartitionIsTold }
{}

/// A refused or repeated publish moves no partition.
pub fn refused_moves_nothing()
    ensures { RefusedMovesNothing }
{}

/// A range that starts below or above the stored offset is refused.
pub fn below_and_above_are_refused()
    ensures { BelowAndAboveAreRefused }
{}

/// Each source and stream has its own offsets.
pub fn streams_are_apart()
    ensures { StreamsAreApart }
{}

/// Ids and ranges are published together or not at all.
pub fn ids_and_ranges_together()
    ensures { IdsAndRangesTogether }
{}

/// An insert goes on from the stored offsets.
pub fn inserts_go_on()
    ensures { InsertsGoOn }
{}

/// A replace goes on from the stored offsets.
pub fn replaces_go_on()
    ensures { ReplacesGoOn }
{}

/// A reset to the same offsets is a publication of its own.
pub fn same_reset_again()
    ensures { SameResetAgain }
{}

/// After a reset ranges go on from its offsets.
pub fn ranges_after_reset()
    ensures { RangesAfterReset }
{}

/// A reset leaves other streams and sources.
pub fn other_streams_stay()
    ensures { OtherStreamsStay }
{}

/// A publish without ids is repeated across resets of others, and not across one of its own stream.
pub fn own_reset_forgets()
    ensures { OwnResetForgets }
{}

/// The rows of appends and resets in the list of publications.
pub fn publications_of_stream()
    ensures { PublicationsOfStream }
{}
