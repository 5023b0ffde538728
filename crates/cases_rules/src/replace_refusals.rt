//! Which replacements are refused.

ghost use Rattle.cases_rules.specs.ReplaceRefusalCases.{OnlyRunningReplaces, SpansMayTouch, IdsOfOtherSpans, PartsWithoutGap, RevokedLocksAreTold, LocksThatDoNotServe, VersionOfEachSpan, ReplacedOnce, AppendedReachesOut, FaultsOfReplace, FirstUpgradeOfLocks};

/// A task that is there and runs replaces, and no other.
pub fn only_running_replaces()
    ensures { OnlyRunningReplaces }
{}

/// A span that overlaps an earlier one is told; spans that touch are let through.
pub fn spans_may_touch()
    ensures { SpansMayTouch }
{}

/// An id of another span or source is told by its own span.
pub fn ids_of_other_spans()
    ensures { IdsOfOtherSpans }
{}

/// The parts of a span are 0 to the last.
pub fn parts_without_gap()
    ensures { PartsWithoutGap }
{}

/// The least revoked lock of the task over a span is told.
pub fn revoked_locks_are_told()
    ensures { RevokedLocksAreTold }
{}

/// A lock of another kind, task or span, or one that was left, doesn't serve.
pub fn locks_that_do_not_serve()
    ensures { LocksThatDoNotServe }
{}

/// Each id has the version of its own span's lock.
pub fn version_of_each_span()
    ensures { VersionOfEachSpan }
{}

/// Under one lock no span is replaced twice.
pub fn replaced_once()
    ensures { ReplacedOnce }
{}

/// What was appended and reaches out of a span is told before a pending that does.
pub fn appended_reaches_out()
    ensures { AppendedReachesOut }
{}

/// Of the upgrade rows of several locks the first in the table's order is told.
pub fn first_upgrade_of_locks()
    ensures { FirstUpgradeOfLocks }
{}

/// Of several faults the first in the order of the cases is told.
pub fn faults_of_replace()
    ensures { FaultsOfReplace }
{}
