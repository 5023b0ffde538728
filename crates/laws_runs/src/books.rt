//! The books of stores and runs.

ghost use Rattle.machine_run.specs.Rules.{HasGoodStates};
ghost use Rattle.overlord_rules.specs.CommandRules.{command_rules};
ghost use Rattle.overlord_rules.specs.OverlordRules.{overlord_rules};
ghost use Rattle.laws_runs.specs.RunBooks.{LinesKeepSound, RunsLeadToSound, RunsShowWhatWasPut, SoundShowWhatWasPut, StoreBooksAreSound};

/// The book of an empty store and that of a snapshot are sound, and lines and records lead from sound books to sound ones.
pub fn good_books()
    ensures { HasGoodStates overlord_rules }
{}

/// So do commands.
pub fn good_command_books()
    ensures { HasGoodStates command_rules }
{}

/// The book that the bytes of a store's two files stand for is sound, whatever bytes they are.
pub fn store_books_are_sound()
    ensures { StoreBooksAreSound }
{}

/// Lines, whatever bytes they are, lead from a sound book to a sound one.
pub fn lines_keep_sound()
    ensures { LinesKeepSound }
{}

/// So each book behind first lines of a run over a store is sound.
pub fn runs_lead_to_sound()
    ensures { RunsLeadToSound }
{}

/// The replies of a sound book to `show timeline` and `show contents`, and its visible rows, show a root at an instant exactly
/// where one of its publications added it and none after took it away there, and then once.
pub fn sound_show_what_was_put()
    ensures { SoundShowWhatWasPut }
{}

/// So does each book behind first lines of a run over a store.
pub fn runs_show_what_was_put()
    ensures { RunsShowWhatWasPut }
{}
