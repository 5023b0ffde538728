//! Stream offsets.

ghost use Rattle.cases_rules.specs.StreamCases.{ReplicasPublishOnce, RangesGoOn, ResetForgets, ResetReplaces, JoiningChanges};

/// Two replicas' equal publishes are one, also after a task's end.
pub fn replicas_publish_once()
    ensures { ReplicasPublishOnce }
{}

/// Ranges start at the stored offset and end at or after their start.
pub fn ranges_go_on()
    ensures { RangesGoOn }
{}

/// A repeat without ids doesn't reach over a reset of its stream.
pub fn reset_forgets()
    ensures { ResetForgets }
{}

/// A reset replaces all stored offsets of its stream.
pub fn reset_replaces()
    ensures { ResetReplaces }
{}

/// The second member of a lock changes the book, and the same request again doesn't.
pub fn joining_changes()
    ensures { JoiningChanges }
{}
