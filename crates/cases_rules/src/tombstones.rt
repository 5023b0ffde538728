//! Tombstones: replacing by nothing.

ghost use Rattle.cases_rules.specs.TombstoneCases.{NothingOverDay, NothingCarriesAppended, BothIdAndTombstone};

/// A day that is overwritten by nothing has no roots, and ids can be appended to it.
pub fn nothing_over_day()
    ensures { NothingOverDay }
{}

/// A replacement by nothing carries what was appended since its lock.
pub fn nothing_carries_appended()
    ensures { NothingCarriesAppended }
{}

/// One id as an id and as a tombstone is refused.
pub fn both_id_and_tombstone()
    ensures { BothIdAndTombstone }
{}
