//! Answers to commands that keep their form.

ghost use Rattle.laws_texts.specs.Texts.{AnswersHaveTexts, LimitedRowsHaveTexts, SoundHasLimitedRows, SoundLocksHaveTexts};

/// Whatever command that keeps its form a sound book answers, each instant that the reply names has
/// a text: those of refusals, of what is granted and allocated, and of every row that is shown.
pub fn answers_have_texts()
    ensures { AnswersHaveTexts }
{}

/// The same of any book with the part of soundness that it takes: tasks and locks are sound, and so
/// are the places of pendings, and ids are within their limits.
pub fn limited_rows_have_texts()
    ensures { LimitedRowsHaveTexts }
{}

/// A sound book has that part.
pub fn sound_has_limited_rows()
    ensures { SoundHasLimitedRows }
{}

/// Where the answer names no id of a row, sound tasks and locks are enough.
pub fn sound_locks_have_texts()
    ensures { SoundLocksHaveTexts }
{}
