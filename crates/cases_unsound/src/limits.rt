//! The shape: limits of the book and of its rows.

ghost use Rattle.cases_unsound.specs.LimitCases.{DropsByKind, KindsOfPublications, NumbersOfLocks, NumbersOfTheBook, PartsOfChunks, ResetsByKind, RowsOutOfLimits, StatesOfSequences};

/// Clock, last version and the next lock's number out of their limits: row 0.
pub fn numbers_of_the_book()
    ensures { NumbersOfTheBook }
{}

/// One row out of its limits, table by table.
pub fn rows_out_of_limits()
    ensures { RowsOutOfLimits }
{}

/// A chunk's next part, at its limit and above.
pub fn parts_of_chunks()
    ensures { PartsOfChunks }
{}

/// A lock's number that is too great, in its own row and in rows that stand under it.
pub fn numbers_of_locks()
    ensures { NumbersOfLocks }
{}

/// Spans and counts that the kind of a publication excludes.
pub fn kinds_of_publications()
    ensures { KindsOfPublications }
{}

/// What a drop has, and what it can't have.
pub fn drops_by_kind()
    ensures { DropsByKind }
{}

/// What a reset has, and what it can't have.
pub fn resets_by_kind()
    ensures { ResetsByKind }
{}

/// What the state of a sequence excludes.
pub fn states_of_sequences()
    ensures { StatesOfSequences }
{}
