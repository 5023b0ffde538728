//! Equality of ids.
ghost use Rattle.std.specs.Prelude.{◌≡◌};
ghost use Rattle.std.specs.Option.{option_copied};
ghost use Rattle.seg_names.specs.Ids.{same_extent, same_id};
ghost use Rattle.book_rows.specs.Allocation.{is_root};
ghost use Rattle.book_rows.specs.Ids.{same_previous};

use book_rows::PendingRow;
use iv_span::Span;
use seg_names::SegId;

fn same_span(left: Span, right: Span) -> bool
    ensures { result ≡ same_extent left right }
{
    left.start() == right.start() && left.end() == right.end()
}

/// Whether both are one id.
pub fn same_id(left: &SegId, right: &SegId) -> bool
    ensures { result ≡ same_id left.now right.now }
{
    left.source == right.source
        && same_span(left.span, right.span)
        && left.version == right.version
        && left.part == right.part
}

/// Whether both are one id, or none.
pub fn same_previous(left: &Option<SegId>, right: Option<&SegId>) -> bool
    ensures { result ≡ same_previous left.now (option_copied right.entry) }
{
    match (left, right) {
        (Some(left), Some(right)) => same_id(left, right),
        (None, None) => true,
        _ => false,
    }
}

/// Whether the pending's id is its root.
pub fn is_root(row: &PendingRow) -> bool
    ensures { result ≡ is_root row.now }
{
    same_id(&row.id, &row.root)
}
