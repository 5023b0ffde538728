//! What commands keep: parts of commands, as their checks let them through, and then every command.

ghost use Rattle.laws_chunks.specs.Allotments.{AllocatedKeeps, AllottedKeeps};
ghost use Rattle.laws_chunks.specs.Appends.{AppendedKeeps};
ghost use Rattle.laws_chunks.specs.Checks.{CheckedInsertKeeps, CheckedReplaceKeeps};
ghost use Rattle.laws_chunks.specs.Commands.{AllGrantedKeeps, DroppedKeeps, GrantedKeeps, LeaveAllKeeps};
ghost use Rattle.laws_chunks.specs.EveryCommand.{EveryCommandKeeps};
ghost use Rattle.laws_chunks.specs.Inserts.{InsertedKeeps};
ghost use Rattle.laws_chunks.specs.Replacements.{ReplacedKeeps};

/// A task that leaves all its locks keeps the rules.
pub fn leave_all_keeps()
    ensures { LeaveAllKeeps }
{}

/// A request for a lock that is granted, at whatever instant, keeps the rules.
pub fn granted_keeps()
    ensures { GrantedKeeps }
{}

/// Several granted requests, each on the outcome of those before, keep the rules.
pub fn all_granted_keeps()
    ensures { AllGrantedKeeps }
{}

/// An allocated id, with its chunk where that is new, keeps the rules, at an open place or in a span that no live chunk
/// meets.
pub fn allotted_keeps()
    ensures { AllottedKeeps }
{}

/// A granted allocation keeps the rules: its place is found on the book before, and its lock isn't a replacing one.
pub fn allocated_keeps()
    ensures { AllocatedKeeps }
{}

/// An append of distinct ids that are allocated to the task keeps the rules, where the members of locks are
/// tasks of distinct ids.
pub fn appended_keeps()
    ensures { AppendedKeeps }
{}

/// An insert of disjoint filled spans where no pending is keeps the rules.
pub fn inserted_keeps()
    ensures { InsertedKeeps }
{}

/// An insert that its check lets through keeps the rules.
pub fn checked_insert_keeps()
    ensures { CheckedInsertKeeps }
{}

/// A replacement of disjoint filled spans that cut no root pending and no upgrade root keeps the rules.
pub fn replaced_keeps()
    ensures { ReplacedKeeps }
{}

/// A replacement that its check lets through keeps the rules.
pub fn checked_replace_keeps()
    ensures { CheckedReplaceKeeps }
{}

/// A drop that is not refused keeps the rules.
pub fn dropped_keeps()
    ensures { DroppedKeeps }
{}

/// Every command that keeps its form keeps the rules, where tasks and locks are in shape: also that chunk rows are
/// distinct, and that no id is pending, added or a tombstone twice, or two of these.
pub fn every_command_keeps()
    ensures { EveryCommandKeeps }
{}
