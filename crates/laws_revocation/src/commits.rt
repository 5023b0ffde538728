//! Under which locks a command publishes: never under one that is revoked or gone.

ghost use Rattle.laws_revocation.specs.Commits.{EachIdHasLock, EachInsertedIdHasLock, EachInsertedSpanHasLock, EachReplacedIdHasLock, EachReplacedSpanHasLock, EndedPublishesNothing, OverPublishesNothing, PublishAddsOne, ReachedEndedPublishesNothing, ReachedRevokedPublishesNothing, RevokedPublishesNothing, RevokedVersionIsNotPublished};

/// Each id of an append that changes the book is that of a pending of one of the locks under which
/// the append publishes.
pub fn each_id_has_lock()
    ensures { EachIdHasLock }
{}

/// Each span of an insert that changes the book lies within a valid one of the locks under which the
/// insert publishes.
pub fn each_inserted_span_has_lock()
    ensures { EachInsertedSpanHasLock }
{}

/// So does each span of a replacement.
pub fn each_replaced_span_has_lock()
    ensures { EachReplacedSpanHasLock }
{}

/// A command that publishes under a lock adds one publication.
pub fn publish_adds_one()
    ensures { PublishAddsOne }
{}

/// Each id and tombstone of an insert that changes the book has the version of a valid one of those
/// locks, which contains its span.
pub fn each_inserted_id_has_lock()
    ensures { EachInsertedIdHasLock }
{}

/// So has each id and tombstone of a replacement.
pub fn each_replaced_id_has_lock()
    ensures { EachReplacedIdHasLock }
{}

/// Where locks have numbers of their own and no two but appending ones have one version, an insert or
/// a replacement that keeps its form, with an id of the version of a revoked lock that isn't an
/// appending one, changes nothing.
pub fn revoked_version_is_not_published()
    ensures { RevokedVersionIsNotPublished }
{}

/// Where each pending is of a valid lock, no command publishes under a lock that is revoked or gone.
pub fn over_publishes_nothing()
    ensures { OverPublishesNothing }
{}

/// In a sound book: once a lock is revoked, and whatever commands come after, no command publishes under it.
pub fn revoked_publishes_nothing()
    ensures { RevokedPublishesNothing }
{}

/// The same of a lock that has ended.
pub fn ended_publishes_nothing()
    ensures { EndedPublishesNothing }
{}

/// From the book without rows on, whatever commands come before a lock is revoked and after it, no
/// command publishes under it.
pub fn reached_revoked_publishes_nothing()
    ensures { ReachedRevokedPublishesNothing }
{}

/// The same of a lock that has ended.
pub fn reached_ended_publishes_nothing()
    ensures { ReachedEndedPublishesNothing }
{}
