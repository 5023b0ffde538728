//! Where a root pending may be placed, and that such a place stays open.

ghost use Rattle.laws_chunks.specs.Places.{BucketIsOpen, GrantStaysOpen, JoinStaysOpen, PendingPlaceIsOpen, RevokeStaysOpen, RowPlaceIsOpen};

/// The chunk of a used segment that nothing cuts is open.
pub fn row_place_is_open()
    ensures { RowPlaceIsOpen }
{}

/// The chunk of a pending at an instant without segments is open.
pub fn pending_place_is_open()
    ensures { PendingPlaceIsOpen }
{}

/// A chunk that no live chunk meets is open under the lock of its version.
pub fn bucket_is_open()
    ensures { BucketIsOpen }
{}

/// An open place stays open where locks are revoked.
pub fn revoke_stays_open()
    ensures { RevokeStaysOpen }
{}

/// An open place stays open where a task joins locks.
pub fn join_stays_open()
    ensures { JoinStaysOpen }
{}

/// An open place stays open where a lock is granted.
pub fn grant_stays_open()
    ensures { GrantStaysOpen }
{}
