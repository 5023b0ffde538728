//! Appending and replacing at one time.

ghost use Rattle.cases_rules.specs.ReplaceCases.{WhatWasAppendedIsCarried, TablesAfterStreamsDay, PendingIsCopied, TwoReplacements, TablesAfterTwo, PendingReachesOut, DroppedAfterwards, AskedForWholeLock};

/// What was appended since the replacing lock is carried into the replacement.
pub fn appended_is_carried()
    ensures { WhatWasAppendedIsCarried }
{}

/// The tables after that.
pub fn tables_after_replacement()
    ensures { TablesAfterStreamsDay }
{}

/// A pending is copied into the replacement, and appended later with its copy.
pub fn pending_is_copied()
    ensures { PendingIsCopied }
{}

/// A pending is copied into each replacement, and its copies are not.
pub fn two_replacements()
    ensures { TwoReplacements }
{}

/// The segments after that.
pub fn tables_after_two()
    ensures { TablesAfterTwo }
{}

/// A pending that reaches out of the span refuses a replacement.
pub fn pending_reaches_out()
    ensures { PendingReachesOut }
{}

/// What was appended and replaced can be dropped when its locks are gone.
pub fn dropped_afterwards()
    ensures { DroppedAfterwards }
{}

/// What is to be read is asked for the lock's whole span.
pub fn asked_for_whole_lock()
    ensures { AskedForWholeLock }
{}
