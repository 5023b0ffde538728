//! Finite tests that decide what the rules say of every instant.

ghost use Rattle.laws_shown.specs.Tests.{CarriesIsDecided, SeenIsDecided, ShowsIsDecided};

/// Whether what is shown at each instant is what the publications put there is decided, for each root, by the start of
/// its span and the ends within it.
pub fn shows_is_decided()
    ensures { ShowsIsDecided }
{}

/// Whether the upgrade rows of each replacing lock are what was added since is decided by the start of its span
/// and the ends within it.
pub fn carries_is_decided()
    ensures { CarriesIsDecided }
{}

/// A row that is visible at some instant of a span is visible at one of those at which `to_replace` looks.
pub fn seen_is_decided()
    ensures { SeenIsDecided }
{}
