//! The rule that what is shown is what the publications say.
ghost use Rattle.std.specs.Prelude.{◌≡◌, IfOk};
ghost use Rattle.laws_shown.specs.Tests.{shows_contents};
ghost use Rattle.laws_unsound.specs.Rows.{zero_unless};

use crate::events::stay_alike;
use crate::history::{publication_events, row_events};
use book_rows::{Publication, SegmentRow};
use row_search::OutOfMemory;
use row_search::rows::zero_unless;
use std::alloc::Global;

/// Row 0 where at some instant a source shows other roots than its publications put there and did
/// not take away, or one not as often. The error is want of memory.
pub fn shown_row(
    alloc: Global,
    segments: &[SegmentRow],
    publications: &[Publication],
) -> Result<Option<u64>, OutOfMemory>
    ensures { IfOk result (λ row. row ≡ zero_unless (shows_contents segments.now publications.now)) }
{
    let shown = row_events(alloc, segments)?;
    let put = publication_events(alloc, publications)?;
    Ok(zero_unless(stay_alike(alloc, shown, put)?))
}
