//! Which books have bytes.

ghost use Rattle.laws_snapshots.specs.Bytes.{EveryCommandKeepsBytes, ReachedBooksHaveBytes, ReachedBooksReadAgain, SoundBooksHaveBytes};

/// A sound book has bytes where the core of each of its chunks fits its field. No rule of soundness
/// bounds the core of a chunk that no row, pending or lock is of.
pub fn sound_books_have_bytes()
    ensures { SoundBooksHaveBytes }
{}

/// Every command that keeps its form leads from a sound book that has bytes to one that has bytes.
pub fn every_command_keeps_bytes()
    ensures { EveryCommandKeepsBytes }
{}

/// So each book has bytes that such commands reach from the one without rows.
pub fn reached_books_have_bytes()
    ensures { ReachedBooksHaveBytes }
{}

/// And its bytes read as that book.
pub fn reached_books_read_again()
    ensures { ReachedBooksReadAgain }
{}
