//! What the books of runs have beside what they show.

ghost use Rattle.laws_runs.specs.RunRules.{RunsAnswerReadings, RunsHaveCompatibleLocks, RunsKeepSequencesInLine, RunsReadOffsetsOnce, RunsSplitContents};

/// Any two locks of the book behind first lines of a run over a store, neither of them revoked, are compatible.
pub fn runs_have_compatible_locks()
    ensures { RunsHaveCompatibleLocks }
{}

/// There each offset of a partition, from where it begins up to the stored one, which is excluded, lies in exactly one range
/// since its stream's last reset, or of all where nothing resets the stream; and any other offset lies in none.
pub fn runs_read_offsets_once()
    ensures { RunsReadOffsetsOnce }
{}

/// There `to_replace` answers a list of roots only to a task that may ask, and it is the list to read under a lock of that
/// task: the roots that the contents have at some instant of the lock's span and that were added before the lock.
pub fn runs_answer_readings()
    ensures { RunsAnswerReadings }
{}

/// There, at an instant of a valid replacing lock's span that it doesn't cover yet, each root of the contents is read or has
/// one upgrade row of the lock, and not both; and no such row has another root there.
pub fn runs_split_contents()
    ensures { RunsSplitContents }
{}

/// There the unpublished sequences of each group of a supervisor go on from one another, the first from the stored offsets,
/// each with exactly the partitions of the group.
pub fn runs_keep_sequences_in_line()
    ensures { RunsKeepSequencesInLine }
{}
