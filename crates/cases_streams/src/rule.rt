//! Worked cases of the whole rule on sequences, and of reports.

ghost use Rattle.cases_streams.specs.RuleCases.{CompactionIsKept, ReportIsKept, ReportsAreTold, RuleIsKept};

/// A publish in a sound book: what the rule says of the book after it.
pub fn rule_is_kept()
    ensures { RuleIsKept }
{}

/// The reports of a sequence are of its replicas and reach its starts.
pub fn reports_are_told()
    ensures { ReportsAreTold }
{}

/// A replica reports, and so it is after it.
pub fn report_is_kept()
    ensures { ReportIsKept }
{}

/// A task that is named as a compaction is named after its place, also when another task is added.
pub fn compaction_is_kept()
    ensures { CompactionIsKept }
{}
