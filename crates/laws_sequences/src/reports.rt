//! What every command keeps of what the replicas have reported.

ghost use Rattle.laws_sequences.specs.ReportLaws.{CommandsKeepReports, ReportsStay, SoundHasReports};

/// A sound book has reports and compactions in order.
pub fn sound_has_reports()
    ensures { SoundHasReports }
{}

/// Every command that keeps its form keeps that reports are of replicas of their sequence and reach
/// its starts, and that a task that is named as a compaction is named after its place (no command
/// makes one yet).
pub fn commands_keep_reports()
    ensures { CommandsKeepReports }
{}

/// So it is in each book that commands that keep their form reach from the book without rows.
pub fn reports_stay()
    ensures { ReportsStay }
{}
