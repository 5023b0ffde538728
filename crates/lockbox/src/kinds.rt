//! Which locks are the same, and which go together.
ghost use Rattle.std.specs.Prelude.{◌≡◌};
ghost use Rattle.book_rows.specs.Kinds.{go_together, same_kind};

use book_rows::LockKind;
use iv_span::Span;

pub fn same_kind(kind: LockKind, other: LockKind) -> bool
    ensures { result ≡ same_kind kind other }
{
    kind == other
}

pub fn go_together(kind: LockKind, span: Span, other: LockKind, other_span: Span) -> bool
    ensures { result ≡ go_together kind span other other_span }
{
    match (kind, other) {
        (LockKind::Shared, LockKind::Shared) | (LockKind::Append, LockKind::Append) => true,
        (LockKind::Append, LockKind::Replace) => {
            !span.overlaps(other_span) || other_span.contains(span)
        }
        (LockKind::Replace, LockKind::Append) => {
            !span.overlaps(other_span) || span.contains(other_span)
        }
        _ => !span.overlaps(other_span),
    }
}
