//! Where a new id goes: the visible chunk, a pending's chunk, or the coarsest free bucket.

ghost use Rattle.cases_rules.specs.PlaceCases.{BucketOfEach, BucketEdges, WeeksAndLeapDay, Before1970, FirstAndLastBuckets, CoarsestFree, UsedTakesBucket, OtherSourceTakesNone, NoBucketLeft, PlaceThenLock, LockMakesNoFiner};

/// The bucket of each granularity that has ten past five.
pub fn bucket_of_each()
    ensures { BucketOfEach }
{}

/// A bucket begins with its first millisecond and ends before its last instant.
pub fn bucket_edges()
    ensures { BucketEdges }
{}

/// Weeks go from Monday to Monday, also over the end of a year; a leap day is a day, and its month ends after it.
pub fn weeks_and_leap_day()
    ensures { WeeksAndLeapDay }
{}

/// Before 1970 a bucket has the instants up to its end all the same.
pub fn before_1_9_7_0()
    ensures { Before1970 }
{}

/// A bucket that begins before the first instant or ends after the last one gives way to a finer one.
pub fn first_and_last_buckets()
    ensures { FirstAndLastBuckets }
{}

/// Each time a year is asked for, and the coarsest bucket that no pending overlaps is given.
pub fn coarsest_free()
    ensures { CoarsestFree }
{}

/// A segment in use takes the buckets that it overlaps, and one out of use takes none.
pub fn used_takes_bucket()
    ensures { UsedTakesBucket }
{}

/// What another source has takes no bucket and gives no place.
pub fn other_source_takes_none()
    ensures { OtherSourceTakesNone }
{}

/// In the rest of that minute there is no bucket, of whatever granularity; in it there is its chunk.
pub fn no_bucket_left()
    ensures { NoBucketLeft }
{}

/// That there is no bucket is told before a lock in the way.
pub fn place_then_lock()
    ensures { PlaceThenLock }
{}

/// A lock in the way doesn't make the bucket finer.
pub fn lock_makes_no_finer()
    ensures { LockMakesNoFiner }
{}
