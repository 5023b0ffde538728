//! What the publishes of replicas are answered in the books that commands reach: those that commands that
//! keep their form lead to from the book without rows.

ghost use Rattle.laws_sequences.specs.ReachedLaws.{ReachedAnsweredHasRanges, ReachedNextIsLetThrough, ReachedSequenceHasOneNumber};

/// There a publish by a replica that is accepted, or that repeats one, has exactly its sequence's
/// partitions, starts and ends, on the stream of the supervisor of the sequence's source.
pub fn reached_answered_has_ranges()
    ensures { ReachedAnsweredHasRanges }
{}

/// Of such commands, two publishes by replicas of one sequence that are accepted or repeated are answered
/// one number, whatever comes before and between them.
pub fn reached_sequence_has_one_number()
    ensures { ReachedSequenceHasOneNumber }
{}

/// There an append of exactly the ranges of a group's first unpublished sequence, where that is closed,
/// by one of its replicas, on its supervisor's stream, isn't refused for its ranges.
pub fn reached_next_is_let_through()
    ensures { ReachedNextIsLetThrough }
{}
