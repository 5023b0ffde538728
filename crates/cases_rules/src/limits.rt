//! Limits of the tables.

ghost use Rattle.cases_rules.specs.LimitCases.{LastPublication, FullPublications};

/// After 262,143 publications one more is let through.
pub fn last_publication()
    ensures { LastPublication }
{}

/// After 262,144 publications none is let through.
pub fn full_publications()
    ensures { FullPublications }
{}
