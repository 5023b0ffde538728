//! Books and their bytes.

ghost use Rattle.cases_snapshots.specs.BookCases.{CoresFitFourBytes, EmptyBookHasBytes, ResetHasBytes, InsertedHasBytes, EmptiedHasBytes, ReplacedHasBytes};

/// The empty book has 64 bytes: its three numbers, and the counts of its ten tables.
pub fn empty_book_has_bytes()
    ensures { EmptyBookHasBytes }
{}

/// A reset adds a publication and a stored offset.
pub fn reset_has_bytes()
    ensures { ResetHasBytes }
{}

/// An insert of an id adds a chunk, a segment and a publication of code 2.
pub fn inserted_has_bytes()
    ensures { InsertedHasBytes }
{}

/// An insert of a tombstone adds a segment with the byte 3, and a publication of code 6 with its tombstone.
pub fn emptied_has_bytes()
    ensures { EmptiedHasBytes }
{}

/// A publication of code 3, and one of code 7.
pub fn replaced_has_bytes()
    ensures { ReplacedHasBytes }
{}

/// The book of an insert has bytes, also with the greatest core that fits four bytes. With one more, which
/// soundness doesn't exclude of a chunk that nothing is of, it has none.
pub fn cores_fit_four_bytes()
    ensures { CoresFitFourBytes }
{}
