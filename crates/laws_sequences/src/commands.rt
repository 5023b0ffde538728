//! What every command keeps of supervisors, their sequences and their tasks.

ghost use Rattle.laws_sequences.specs.CommandLaws.{CommandsKeepLinks, LinksGiveOwnIds, LinksStay, SequencesGoOn, SoundHasLinks};

/// A sound book has its sequences in line.
pub fn sound_has_links()
    ensures { SoundHasLinks }
{}

/// Where sequences are in line, the ids that a tick makes are new.
pub fn links_give_own_ids()
    ensures { LinksGiveOwnIds }
{}

/// Every command that keeps its form keeps that supervisors, sequences and their tasks are in line.
pub fn commands_keep_links()
    ensures { CommandsKeepLinks }
{}

/// So they are in each book that commands that keep their form reach from the book without rows.
pub fn links_stay()
    ensures { LinksStay }
{}

/// So in each such book the sequences of every group go on from one another.
pub fn sequences_go_on()
    ensures { SequencesGoOn }
{}
