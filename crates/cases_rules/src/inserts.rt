//! Inserting and dropping.

ghost use Rattle.cases_rules.specs.InsertCases.{InsertRefusals, PendingRefusesInsert, FaultsInOrder, DropsWhole, DropsNothing, ForeignId, TombstoneCuts};

/// Which inserts are refused, and that a repeated one is answered as the first.
pub fn insert_refusals()
    ensures { InsertRefusals }
{}

/// A pending in the span refuses an insert.
pub fn pending_refuses_insert()
    ensures { PendingRefusesInsert }
{}

/// The first fault in the order of the cases is told.
pub fn faults_in_order()
    ensures { FaultsInOrder }
{}

/// A drop needs a span without locks and without segments that reach out of it.
pub fn drops_whole()
    ensures { DropsWhole }
{}

/// A drop without segments is a publication too.
pub fn drops_nothing()
    ensures { DropsNothing }
{}

/// An id of another source is told by its own span.
pub fn foreign_id()
    ensures { ForeignId }
{}

/// The segment that cuts a chunk may be a tombstone.
pub fn tombstone_cuts()
    ensures { TombstoneCuts }
{}
