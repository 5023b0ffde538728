//! What is stored of a source, stream and partition after a command.

ghost use Rattle.laws_offsets.specs.Lookups.{PublishStoresEnds, ResetStoresListed};

/// After a publish with ranges that changes the book, each of its partitions has the end of its range stored, and any other
/// partition of any stream what it had.
pub fn publish_stores_ends()
    ensures { PublishStoresEnds }
{}

/// After a reset that changes the book, each partition of its stream has what the reset lists, or nothing, and any other
/// stream what it had.
pub fn reset_stores_listed()
    ensures { ResetStoresListed }
{}
