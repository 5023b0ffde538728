//! Lines as the commands in them.

ghost use Rattle.laws_runs.specs.RunCommands.{LinesLeadAsCommands, RunsReach, StoreBooksAreReached};

/// Lines lead where the commands in them lead, each of which keeps its form.
pub fn lines_lead_as_commands()
    ensures { LinesLeadAsCommands }
{}

/// The book that the bytes of a store's two files stand for is one that commands which keep their form reach.
pub fn store_books_are_reached()
    ensures { StoreBooksAreReached }
{}

/// So is each book behind first lines of a run over a store.
pub fn runs_reach()
    ensures { RunsReach }
{}
