//! What replicas report, and how a sequence closes.

ghost use Rattle.cases_rules.specs.ReportCases.{WhoReports, StateBeforeOffsets, AbandonedDoesNothing, ClosedAnswersItsEnds, LeastBadPartition, GreatestOfEachReplica, EndedReplicaCounts, ClosesAtTheClock, SameReportChanges, EndsWhereItStarts};

/// A running task of a sequence reports, and no other.
pub fn who_reports()
    ensures { WhoReports }
{}

/// The state is told before the offsets are looked at.
pub fn state_before_offsets()
    ensures { StateBeforeOffsets }
{}

/// An abandoned sequence takes no report and no publish.
pub fn abandoned_does_nothing()
    ensures { AbandonedDoesNothing }
{}

/// A closed sequence answers its ends to every report, and nothing changes.
pub fn closed_answers_its_ends()
    ensures { ClosedAnswersItsEnds }
{}

/// The least partition that is missing, foreign or told below its start is named.
pub fn least_bad_partition()
    ensures { LeastBadPartition }
{}

/// Of each replica the greatest offsets are kept.
pub fn greatest_of_each_replica()
    ensures { GreatestOfEachReplica }
{}

/// What a replica told before it ended counts.
pub fn ended_replica_counts()
    ensures { EndedReplicaCounts }
{}

/// A sequence closes at the book's clock.
pub fn closes_at_the_clock()
    ensures { ClosesAtTheClock }
{}

/// A report that is told again while others are missing is a change.
pub fn same_report_changes()
    ensures { SameReportChanges }
{}

/// A sequence may end where it starts.
pub fn ends_where_it_starts()
    ensures { EndsWhereItStarts }
{}
