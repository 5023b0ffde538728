//! Books that break one soundness rule each.

ghost use Rattle.cases_rules.specs.BrokenCases.{UnrevokedLock, CopyLostOrDoubled, KeysThatMeet, RowsToCome, ChunksThatMeet, RowsOfNoLock, WrongCores, WrongUpperChunks, MissingUpgradeRow, OffsetOfNoRange, WrongSequences};

/// A revoked lock that stands as if it were valid.
pub fn unrevoked_lock()
    ensures { UnrevokedLock }
{}

/// A copy of a root that is gone, or there twice.
pub fn copy_lost_or_doubled()
    ensures { CopyLostOrDoubled }
{}

/// Two rows of one key, and a lock number that is still to come.
pub fn keys_that_meet()
    ensures { KeysThatMeet }
{}

/// Versions, commits, chunks and parts that aren't there yet.
pub fn rows_to_come()
    ensures { RowsToCome }
{}

/// Live chunks that overlap another of their version, or a valid lock below them.
pub fn chunks_that_meet()
    ensures { ChunksThatMeet }
{}

/// A pending and an upgrade row whose lock is gone.
pub fn rows_of_no_lock()
    ensures { RowsOfNoLock }
{}

/// A core of which a part is missing, and one that is not to be there.
pub fn wrong_cores()
    ensures { WrongCores }
{}

/// A chunk above another without a core, or without the copy of a pending.
pub fn wrong_upper_chunks()
    ensures { WrongUpperChunks }
{}

/// An upgrade row that is missing.
pub fn missing_upgrade_row()
    ensures { MissingUpgradeRow }
{}

/// A stored offset that no range ends at.
pub fn offset_of_no_range()
    ensures { OffsetOfNoRange }
{}

/// Sequences that start elsewhere, are not counted from 0, or were published by nothing.
pub fn wrong_sequences()
    ensures { WrongSequences }
{}
