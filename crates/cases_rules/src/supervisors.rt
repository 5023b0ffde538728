//! A supervisor of two groups with two replicas each.

ghost use Rattle.cases_rules.specs.SupervisorCases.{FirstSequenceCloses, ClosedSequenceIsPublished, LateSequenceIsAbandoned, ReportsPauseAndClose, EndClosesAndAbandons, WhosePublish, ResetAbandons};

/// Sequences open, pause when their time is over, and close when each replica has reported.
pub fn first_sequence_closes()
    ensures { FirstSequenceCloses }
{}

/// New sequences go on where the last ended, and a closed one is published once.
pub fn closed_sequence_is_published()
    ensures { ClosedSequenceIsPublished }
{}

/// A closed sequence that isn't published in time is abandoned with those after it.
pub fn late_sequence_is_abandoned()
    ensures { LateSequenceIsAbandoned }
{}

/// A checkpoint pauses; a report names exactly the partitions; a closed sequence answers its ends.
pub fn reports_pause_and_close()
    ensures { ReportsPauseAndClose }
{}

/// A replica that ends may close its sequence, and the last one abandons it.
pub fn end_closes_and_abandons()
    ensures { EndClosesAndAbandons }
{}

/// A publish of a sequence's task has the sequence's ranges, and no other task publishes on the stream.
pub fn whose_publish()
    ensures { WhosePublish }
{}

/// A reset of the supervisor's stream abandons its sequences.
pub fn reset_abandons()
    ensures { ResetAbandons }
{}
