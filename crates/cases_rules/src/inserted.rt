//! What an insert makes, when it repeats one, and the ranges that come with it.

ghost use Rattle.cases_rules.specs.InsertedCases.{InsertedRows, LaterIsVisible, PartsAfterCore, GroupRepeats, RepeatLeaves, RepeatIsAlike, TombstoneRepeats, IdsBeforeRanges, InsertsRanges, SupervisedStream};

/// Ids and tombstones are segments in the order of the spans and make whole chunks; the publication has them apart, and nothing else changes.
pub fn inserted_rows()
    ensures { InsertedRows }
{}

/// The later of two locks is visible where it inserts, and each commit has the next number.
pub fn later_is_visible()
    ensures { LaterIsVisible }
{}

/// An appended id goes on from the inserted parts and doesn't belong to the core.
pub fn parts_after_core()
    ensures { PartsAfterCore }
{}

/// Any task of the group repeats an insert, one that waits or has ended too, and no task of another group or source.
pub fn group_repeats()
    ensures { GroupRepeats }
{}

/// A repeat changes nothing, nor does a refused insert.
pub fn repeat_leaves()
    ensures { RepeatLeaves }
{}

/// A repeat has the same ranges, ids, tombstones and kind: else it is decided anew.
pub fn repeat_is_alike()
    ensures { RepeatIsAlike }
{}

/// A repeat of a tombstone is one too, and is found behind other publications, whatever happened to the rows.
pub fn tombstone_repeats()
    ensures { TombstoneRepeats }
{}

/// What is wrong with the ids is told before what is wrong with the ranges.
pub fn ids_before_ranges()
    ensures { IdsBeforeRanges }
{}

/// An insert's ranges go on from the stored offsets, and their ends are stored; the first partition that doesn't go on is told.
pub fn inserts_ranges()
    ensures { InsertsRanges }
{}

/// The stream that a supervisor reads is published by its own tasks alone; other streams and none are free.
pub fn supervised_stream()
    ensures { SupervisedStream }
{}
