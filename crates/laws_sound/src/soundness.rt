//! Soundness of whole books.

ghost use Rattle.book_rows.specs.Answer.{StaysWhereUnchanged};
ghost use Rattle.book_rows.specs.Sound.{EmptyIsSound};
ghost use Rattle.laws_sound.specs.Soundness.{EveryCommandKeepsSound, ReachedBooksAreSound};

/// Where a command doesn't change the book, the book after is the book before.
pub fn stays_where_unchanged()
    ensures { StaysWhereUnchanged }
{}

/// The book without rows is sound.
pub fn empty_is_sound()
    ensures { EmptyIsSound }
{}

/// Every command that keeps its form leads from a sound book to a sound one.
pub fn every_command_keeps_sound()
    ensures { EveryCommandKeepsSound }
{}

/// So each book is sound that a list of such commands reaches from the one without rows, whichever
/// tasks they are of, and however often and in which order they come.
pub fn reached_books_are_sound()
    ensures { ReachedBooksAreSound }
{}
