//! Which lists keep a command's form: how long they may be, in which order they stand, and what may repeat.

ghost use Rattle.cases_rules.specs.FormLists.{WantsAtMost, SpansInOrder, SpansAtMost, IdsInOrder, IdsOnce, IdsAtMost, RangesInOrder, RangeNumbers, RangesAtMost};

/// A task wants at most 64 locks, in any order and also twice.
pub fn wants_at_most()
    ensures { WantsAtMost }
{}

/// Spans stand by start and then by end; they may repeat and overlap.
pub fn spans_in_order()
    ensures { SpansInOrder }
{}

/// An insert has at least one span, and at most 4,096.
pub fn spans_at_most()
    ensures { SpansAtMost }
{}

/// Ids stand by source, start, end, version and part, and so do tombstones.
pub fn ids_in_order()
    ensures { IdsInOrder }
{}

/// No id is there twice, and no tombstone, but one may be both; an insert has at least one.
pub fn ids_once()
    ensures { IdsOnce }
{}

/// An insert has at most 4,096 ids, and at most 4,096 tombstones.
pub fn ids_at_most()
    ensures { IdsAtMost }
{}

/// Ranges have a name as stream, and at least one partition; partitions ascend.
pub fn ranges_in_order()
    ensures { RangesInOrder }
{}

/// Partitions have 31 bits, and offsets 63; a range that ends before it starts keeps the form.
pub fn range_numbers()
    ensures { RangeNumbers }
{}

/// At most 4,096 partitions.
pub fn ranges_at_most()
    ensures { RangesAtMost }
{}
