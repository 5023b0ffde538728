//! Equality of ids and of spans.
ghost use Rattle.std.specs.Prelude.{◌≡◌};
ghost use Rattle.seg_names.specs.Ids.{same_extent, same_id};

use iv_span::Span;
use seg_names::SegId;

/// Whether both have the same ends.
pub fn same_span(left: Span, right: Span) -> bool
    ensures { result ≡ same_extent left right }
{
    left.start() == right.start() && left.end() == right.end()
}

/// Whether both are one id.
pub fn same_id(left: &SegId, right: &SegId) -> bool
    ensures { result ≡ same_id left.now right.now }
{
    left.source == right.source
        && same_span(left.span, right.span)
        && left.version == right.version
        && left.part == right.part
}
