//! What the publishes of replicas are answered.

ghost use Rattle.laws_sequences.specs.PublishLaws.{AnsweredHasRanges, AnsweredIsCommitted, NextIsLetThrough, PublicationsStay, SequenceHasOneNumber, SequenceHasOnePlace};

/// Where sequences are in line, a publish by a replica that is accepted, or that repeats one, has exactly
/// its sequence's partitions, starts and ends: one range for each partition of the group.
pub fn answered_has_ranges()
    ensures { AnsweredHasRanges }
{}

/// The number that it is answered is the place of a publication of its sequence.
pub fn answered_is_committed()
    ensures { AnsweredIsCommitted }
{}

/// Whatever command comes, a publication stays at its place.
pub fn publications_stay()
    ensures { PublicationsStay }
{}

/// Where sequences are in line, each has publications at one place at most.
pub fn sequence_has_one_place()
    ensures { SequenceHasOnePlace }
{}

/// So there two publishes by replicas of one sequence that are accepted or repeated are answered one
/// number, whatever commands that keep their form come between.
pub fn sequence_has_one_number()
    ensures { SequenceHasOneNumber }
{}

/// Where sequences are in line and the first unpublished one of a group is closed, an append by one of
/// its replicas of exactly its ranges, on its supervisor's stream, isn't refused for its ranges.
pub fn next_is_let_through()
    ensures { NextIsLetThrough }
{}
