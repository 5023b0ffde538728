//! Inserting and replacing by tombstones.

ghost use Rattle.cases_rules.specs.NothingCases.{SpansFilledByTombstones, IdsBesideTombstone, TombstoneVersions, PendingUnderNothing, NothingCopiesPendings, NothingOverNothing, HourOfNothing, NothingIsRemembered};

/// A span has ids, or one tombstone of part 0.
pub fn spans_filled_by_tombstones()
    ensures { SpansFilledByTombstones }
{}

/// One span gets ids and another a tombstone in one insert.
pub fn ids_beside_tombstone()
    ensures { IdsBesideTombstone }
{}

/// A tombstone has its lock's version, and uses it up.
pub fn tombstone_versions()
    ensures { TombstoneVersions }
{}

/// A pending refuses an insert by nothing.
pub fn pending_under_nothing()
    ensures { PendingUnderNothing }
{}

/// A replacement by nothing copies pendings.
pub fn nothing_copies_pendings()
    ensures { NothingCopiesPendings }
{}

/// Nothing replaces nothing, once.
pub fn nothing_over_nothing()
    ensures { NothingOverNothing }
{}

/// An hour of nothing in a day.
pub fn hour_of_nothing()
    ensures { HourOfNothing }
{}

/// An insert by nothing is repeated across a reset of its stream.
pub fn nothing_is_remembered()
    ensures { NothingIsRemembered }
{}
