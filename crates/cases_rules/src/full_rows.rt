//! Tables that are full: the last row is let through, and one more is refused.

ghost use Rattle.cases_rules.specs.FullRowCases.{DropsFillPublications, InsertsFillSegments, InsertsFillChunks, ReplacesFillPendings, AppendsFillUpgradeRows, OneMoreSupervisor, TicksFillTasks, TicksFillSequences, ResetsFillOffsets, LastPartAndNumber};

/// Publications, by a drop.
pub fn drops_fill_publications()
    ensures { DropsFillPublications }
{}

/// Segments, by an insert.
pub fn inserts_fill_segments()
    ensures { InsertsFillSegments }
{}

/// Chunks, by an insert.
pub fn inserts_fill_chunks()
    ensures { InsertsFillChunks }
{}

/// Pendings, by a replace that copies one.
pub fn replaces_fill_pendings()
    ensures { ReplacesFillPendings }
{}

/// Upgrade rows, by an append.
pub fn appends_fill_upgrade_rows()
    ensures { AppendsFillUpgradeRows }
{}

/// Supervisors, by one more.
pub fn one_more_supervisor()
    ensures { OneMoreSupervisor }
{}

/// Tasks, by a tick that opens a sequence.
pub fn ticks_fill_tasks()
    ensures { TicksFillTasks }
{}

/// Sequences, by a tick that opens one.
pub fn ticks_fill_sequences()
    ensures { TicksFillSequences }
{}

/// Offsets, by a reset; publications are told first.
pub fn resets_fill_offsets()
    ensures { ResetsFillOffsets }
{}

/// The last part of a chunk and the last number of a lock.
pub fn last_part_and_number()
    ensures { LastPartAndNumber }
{}
