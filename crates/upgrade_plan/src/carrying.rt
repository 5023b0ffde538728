//! Which replacement that is under way has to carry what is appended.
ghost use Rattle.std.specs.Prelude.{◌≡◌};
ghost use Rattle.std.specs.Option.{option_copied};
ghost use Rattle.book_rows.specs.Append.{upgrade_of};
ghost use Rattle.book_rows.specs.Kinds.{same_kind};
ghost use Rattle.book_rows.specs.Locks.{is_replacing, least};
ghost use Rattle.upgrade_plan.specs.NewRows.{carried_by};

use book_rows::{LockKind, PosseRow};
use iv_span::Span;
use lock_posse::{LockTest, Posses};
use seg_names::{Name, SegId};
use tab_segments::Segments;

fn is_of_kind(row: &PosseRow, kind: LockKind) -> bool
    ensures { result ≡ same_kind row.now.lock_kind kind }
{
    row.lock_kind == kind
}

/// The valid replacing locks of a source round a span.
#[derive(Drop)]
struct ReplacingRound<'a> {
    source: &'a Name,
    span: Span,
}

impl LockTest for ReplacingRound<'_> {
    ghost passes = { λ q p. is_replacing q.source.now q.span p };

    fn passes(&self, row: &PosseRow) -> bool {
        !row.revoked
            && row.source == *self.source
            && is_of_kind(row, LockKind::Replace)
            && row.span.contains(self.span)
    }
}

fn least_round<'a>(posses: &'a Posses, source: &Name, span: Span) -> Option<&'a PosseRow>
    ensures { option_copied result ≡ least (is_replacing source.now span) posses.now }
{
    // The span isn't empty, so what contains it overlaps it.
    let _start = span.start();
    posses.least_over(source, span, &ReplacingRound { source, span })
}

/// The number of the lock whose replacement has to carry this root once it is appended: the least
/// valid replacing lock that contains its span. None where there is no such lock, or where a chunk
/// of its version overlaps the root.
pub fn posse_for_append(posses: &Posses, segments: &Segments, root: &SegId) -> Option<u64>
    ensures { upgrade_of posses.now segments.now.chunks root.now ≡ carried_by result root.now }
{
    let lock = least_round(posses, &root.source, root.span)?;
    if segments.version_overlaps(&lock.source, root.span, lock.version) {
        None
    } else {
        Some(lock.number)
    }
}
