//! What is carried, shown and stored, and sequences.

ghost use Rattle.cases_unsound.specs.HistoryCases.{CompactionsByPlace, ContentsNotShown, OffsetsNotTiled, PublicationsOfSequences, ReplicasOfSequences, ReportsOfSequences, SequencesOfGroups, UpgradeRowMissing};

/// A replacement that doesn't carry what was appended since its lock.
pub fn upgrade_row_missing()
    ensures { UpgradeRowMissing }
{}

/// Contents that aren't shown.
pub fn contents_not_shown()
    ensures { ContentsNotShown }
{}

/// Offsets at which no run of ranges ends.
pub fn offsets_not_tiled()
    ensures { OffsetsNotTiled }
{}

/// Sequences of no supervisor or group, out of count, or that don't go on.
pub fn sequences_of_groups()
    ensures { SequencesOfGroups }
{}

/// Ends and reports below the starts, twice, or of no task.
pub fn reports_of_sequences()
    ensures { ReportsOfSequences }
{}

/// Replicas that aren't listed as they live, or aren't as they were submitted.
pub fn replicas_of_sequences()
    ensures { ReplicasOfSequences }
{}

/// A compaction that isn't at the place in its id.
pub fn compactions_by_place()
    ensures { CompactionsByPlace }
{}

/// Publications that sequences don't have, and sequences without theirs.
pub fn publications_of_sequences()
    ensures { PublicationsOfSequences }
{}
