//! The records of lines.

ghost use Rattle.machine_run.specs.Rules.{IsKeptByRecords};
ghost use Rattle.overlord_rules.specs.CommandRules.{command_rules};
ghost use Rattle.overlord_rules.specs.LineCommands.{CommandsAreSpelled, LinesKeepForm, SpellingsJoin};
ghost use Rattle.overlord_rules.specs.OverlordRules.{overlord_rules};

/// The command that a line is keeps its form.
pub fn lines_keep_form()
    ensures { LinesKeepForm }
{}

/// A command that keeps its form and changes a book has a spelling.
pub fn commands_are_spelled()
    ensures { CommandsAreSpelled }
{}

/// The spelling of a command before a record reads as that command and then those of the record.
pub fn spellings_join()
    ensures { SpellingsJoin }
{}

/// The record of a line tells what the line changes, also before others; a line without one leaves the book.
pub fn records_tell_changes()
    ensures { IsKeptByRecords overlord_rules }
{}

/// So does the record of a command.
pub fn commands_tell_changes()
    ensures { IsKeptByRecords command_rules }
{}
