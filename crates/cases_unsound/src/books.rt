//! A sound book with rows in each table.

ghost use Rattle.cases_unsound.specs.SoundBook.{OneOfEach};

/// It breaks no rule.
pub fn one_of_each()
    ensures { OneOfEach }
{}
