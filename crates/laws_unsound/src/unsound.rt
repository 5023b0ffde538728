//! The first rule that a book breaks.

ghost use Rattle.laws_unsound.specs.Laws.{FirstIsFound, FirstUnsoundDecides, FirstUnsoundIsFirst, FullTableIsFound, SoundIsUnbroken};

/// No breach is found exactly where the book is sound.
pub fn first_unsound_decides()
    ensures { FirstUnsoundDecides }
{}

/// A breach that is found is of the first rule that a row breaks, and its row is the least that does.
pub fn first_unsound_is_first()
    ensures { FirstUnsoundIsFirst }
{}

/// Where a row breaks a rule, no lower row does, and no row breaks a rule before it, this is found.
pub fn first_is_found()
    ensures { FirstIsFound }
{}

/// No row of a sound book breaks a rule.
pub fn sound_is_unbroken()
    ensures { SoundIsUnbroken }
{}

/// A table that is too long is found before all else.
pub fn full_table_is_found()
    ensures { FullTableIsFound }
{}
