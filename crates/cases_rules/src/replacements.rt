//! What a replacement makes.

ghost use Rattle.cases_rules.specs.ReplacementCases.{RowsOfReplacement, SinceOfEachSpan, ReadAndShown, UpgradeRowsOutsideStay, IntoReplacement, CopyHasPrevious, OtherSourceIsNotCopied, CopiesGoWithTheirRoot, CopiesDoNotRefuse, RepeatedReplace};

/// The segments, pendings, chunks and upgrade rows after a replacement of two spans.
pub fn rows_of_replacement()
    ensures { RowsOfReplacement }
{}

/// Its publication has the number of publications before each span's lock.
pub fn since_of_each_span()
    ensures { SinceOfEachSpan }
{}

/// What it had to read, and what is shown after it.
pub fn read_and_shown()
    ensures { ReadAndShown }
{}

/// Upgrade rows outside its span stay for the next replacement.
pub fn upgrade_rows_outside_stay()
    ensures { UpgradeRowsOutsideStay }
{}

/// After it new ids go into its chunk.
pub fn into_replacement()
    ensures { IntoReplacement }
{}

/// A copy has the sequence and the previous id of its root.
pub fn copy_has_previous()
    ensures { CopyHasPrevious }
{}

/// The pendings of another source aren't copied.
pub fn other_source_is_not_copied()
    ensures { OtherSourceIsNotCopied }
{}

/// A pending that goes takes its copies with it.
pub fn copies_go_with_their_root()
    ensures { CopiesGoWithTheirRoot }
{}

/// A copy that reaches out of the span doesn't refuse a replacement.
pub fn copies_do_not_refuse()
    ensures { CopiesDoNotRefuse }
{}

/// A repeated replace is answered to any task of the group and changes nothing.
pub fn repeated_replace()
    ensures { RepeatedReplace }
{}
