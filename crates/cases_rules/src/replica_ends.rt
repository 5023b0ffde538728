//! What becomes of a sequence when its replicas end, and when its stream is reset.

ghost use Rattle.cases_rules.specs.ReplicaEndCases.{LastReplicaTakesLaterOnes, FirstOutlivesLater, WaitsForEachReplica, ReadingIsNotClosed, WhoIsLeft, RepeatedEnd, AbandonedLeavesLocks, ResetKeepsPublished, OtherResetsAbandonNothing};

/// With the last replica a sequence and the later ones of its group are abandoned.
pub fn last_replica_takes_later_ones()
    ensures { LastReplicaTakesLaterOnes }
{}

/// A later sequence that loses its last replica leaves the first.
pub fn first_outlives_later()
    ensures { FirstOutlivesLater }
{}

/// A paused sequence stays so while a replica that is left hasn't reported.
pub fn waits_for_each_replica()
    ensures { WaitsForEachReplica }
{}

/// An end closes no sequence that reads.
pub fn reading_is_not_closed()
    ensures { ReadingIsNotClosed }
{}

/// Which replicas are left.
pub fn who_is_left()
    ensures { WhoIsLeft }
{}

/// An end that is repeated changes nothing.
pub fn repeated_end()
    ensures { RepeatedEnd }
{}

/// An abandoned replica leaves its locks and loses its pendings.
pub fn abandoned_leaves_locks()
    ensures { AbandonedLeavesLocks }
{}

/// A reset of the supervisor's stream leaves what is published.
pub fn reset_keeps_published()
    ensures { ResetKeepsPublished }
{}

/// A reset of another stream or source abandons nothing.
pub fn other_resets_abandon_nothing()
    ensures { OtherResetsAbandonNothing }
{}
