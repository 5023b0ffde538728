//! The check of `drop`.
ghost use Rattle.std.specs.Prelude.{◌≡◌};
ghost use Rattle.std.specs.Option.{option_copied};
ghost use Rattle.book_rows.specs.Locks.{is_valid_over, least};
ghost use Rattle.book_rows.specs.Rewrite.{drop_fault};
ghost use Rattle.publish_core.specs.Answers.{IsPassed};

use crate::faults::PublishFault;
use book_rows::PosseRow;
use iv_span::Span;
use lock_posse::{LockTest, Posses};
use seg_names::Name;
use std::alloc::Global;
use tab_segments::Segments;

/// The valid locks of a source over a span.
#[derive(Drop)]
struct Valid<'a> {
    source: &'a Name,
    span: Span,
}

impl LockTest for Valid<'_> {
    ghost passes = { λ q p. is_valid_over q.source.now q.span p };

    fn passes(&self, row: &PosseRow) -> bool {
        !row.revoked && row.source == *self.source && row.span.overlaps(self.span)
    }
}

fn valid_over<'a>(posses: &'a Posses, source: &Name, span: Span) -> Option<&'a PosseRow>
    ensures { option_copied result ≡ least (is_valid_over source.now span) posses.now }
{
    posses.least_over(source, span, &Valid { source, span })
}

/// Whether what is within the span may be dropped: no valid lock of the source overlaps it, and each
/// used segment that overlaps it lies within it. `DropLocked` tells the least lock, else `DropPartial`
/// the first segment.
pub fn check_drop(
    alloc: Global,
    segments: &Segments,
    posses: &Posses,
    source: &Name,
    span: Span,
) -> Result<(), PublishFault>
    ensures { IsPassed result (drop_fault posses.now segments.now.segments source.now span) }
{
    if let Some(lock) = valid_over(posses, source, span) {
        return Err(PublishFault::DropLocked(lock.number));
    }
    match segments.across(source, span) {
        Some(id) => Err(PublishFault::DropPartial(id.twin(alloc)?)),
        None => Ok(()),
    }
}
