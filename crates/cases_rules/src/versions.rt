//! Versions and numbers of locks, the clock, and where they end.

ghost use Rattle.cases_rules.specs.VersionCases.{EachItsVersion, VersionAboveZero, ClockCounts, GrantSetsCounters, RefusedLeaves, SincePublications, LastVersionIsGiven, AfterLastVersion, ClockEndRevokesNothing, NumbersEnd};

/// A version is the moment, or one past the last one where that is later; an appending lock has none of its own.
pub fn each_its_version()
    ensures { EachItsVersion }
{}

/// A moment before 1970 gives the version one: versions are above that of appending locks.
pub fn version_above_zero()
    ensures { VersionAboveZero }
{}

/// A moment before the clock counts as the clock, and the clock stays.
pub fn clock_counts()
    ensures { ClockCounts }
{}

/// A granted lock sets the clock, the last version and the next number; an appending one leaves the version, and one that is granted again sets the clock alone.
pub fn grant_sets_counters()
    ensures { GrantSetsCounters }
{}

/// A refused lock changes nothing, whatever its moment.
pub fn refused_leaves()
    ensures { RefusedLeaves }
{}

/// A lock knows how many publications there were when it was made, and keeps that when it is joined.
pub fn since_publications()
    ensures { SincePublications }
{}

/// The last instant is a version, and the version after the last but one.
pub fn last_version_is_given()
    ensures { LastVersionIsGiven }
{}

/// After it a lock may be joined and a conflict is told; no type but the appending one gets a new lock.
pub fn after_last_version()
    ensures { AfterLastVersion }
{}

/// A lock without a version revokes nothing.
pub fn clock_end_revokes_nothing()
    ensures { ClockEndRevokesNothing }
{}

/// The last number is given; after it a lock may be joined, a conflict is told, and a new lock is refused and revokes nothing.
pub fn numbers_end()
    ensures { NumbersEnd }
{}
