//! Which publications repeat one another, and which a reset makes count no more.
ghost use Rattle.std.specs.Prelude.{◌&&◌, ◌≡◌, map};
ghost use Rattle.std.specs.List.{list_all, zip};
ghost use Rattle.seg_names.specs.Ids.{same_extent, same_id};
ghost use Rattle.book_rows.specs.Ids.{is_listed, same_ids};
ghost use Rattle.book_rows.specs.Kinds.{same_pub_kind};
ghost use Rattle.book_rows.specs.Lists.{is_empty};
ghost use Rattle.book_rows.specs.Publications.{forgets, is_like, is_of_same_stream, same_parts, same_range, same_ranges};
ghost use Rattle.book_rows.specs.Spans.{same_spans};

use book_rows::{PubKind, Publication, Range, Ranges, SpanSince};
use iv_span::Span;
use seg_names::SegId;

fn same_span(left: Span, right: Span) -> bool
    ensures { result ≡ same_extent left right }
{
    left.start() == right.start() && left.end() == right.end()
}

fn same_id(left: &SegId, right: &SegId) -> bool
    ensures { result ≡ same_id left.now right.now }
{
    left.source == right.source
        && same_span(left.span, right.span)
        && left.version == right.version
        && left.part == right.part
}

/// Whether an id is one of the list.
pub fn is_listed(ids: &[SegId], id: &SegId) -> bool
    ensures { result ≡ is_listed ids.now id.now }
{
    ids.iter().any(|other| same_id(other, id))
}

fn each_same_id(left: &[SegId], right: &[SegId]) -> bool
    ensures { result ≡ list_all (λ p. same_id p.0 p.1) (zip left.now right.now) }
{
    left.iter().zip(right).all(|(a, b)| same_id(a, b))
}

fn same_ids(left: &[SegId], right: &[SegId]) -> bool
    ensures { result ≡ same_ids left.now right.now }
{
    left.len() == right.len() && each_same_id(left, right)
}

fn each_same_span(left: &[SpanSince], right: &[SpanSince]) -> bool
    ensures { result ≡ list_all (λ p. same_extent p.0.span p.1.span) (zip left.now right.now) }
{
    left.iter()
        .zip(right)
        .all(|(a, b)| same_span(a.span, b.span))
}

fn same_spans(left: &[SpanSince], right: &[SpanSince]) -> bool
    ensures { result ≡ same_spans (map (λ s. s.span) left.now) (map (λ s. s.span) right.now) }
{
    left.len() == right.len() && each_same_span(left, right)
}

fn same_range(left: &Range, right: &Range) -> bool
    ensures { result ≡ same_range left.now right.now }
{
    left.partition == right.partition && left.start == right.start && left.end == right.end
}

fn each_same_range(left: &[Range], right: &[Range]) -> bool
    ensures { result ≡ list_all (λ p. same_range p.0 p.1) (zip left.now right.now) }
{
    left.iter().zip(right).all(|(a, b)| same_range(a, b))
}

fn same_parts(left: &[Range], right: &[Range]) -> bool
    ensures { result ≡ same_parts left.now right.now }
{
    left.len() == right.len() && each_same_range(left, right)
}

fn same_ranges(left: &Option<Ranges>, right: &Option<Ranges>) -> bool
    ensures { result ≡ same_ranges left.now right.now }
{
    match (left, right) {
        (Some(left), Some(right)) => {
            left.stream == right.stream && same_parts(left.parts.as_slice(), right.parts.as_slice())
        }
        (None, None) => true,
        _ => false,
    }
}

fn is_of_same_stream(left: &Option<Ranges>, right: &Option<Ranges>) -> bool
    ensures { result ≡ is_of_same_stream left.now right.now }
{
    match (left, right) {
        (Some(left), Some(right)) => left.stream == right.stream,
        _ => false,
    }
}

fn same_kind(left: PubKind, right: PubKind) -> bool
    ensures { result ≡ same_pub_kind left right }
{
    match left {
        PubKind::Append => matches!(right, PubKind::Append),
        PubKind::Over => matches!(right, PubKind::Over),
        PubKind::Replace => matches!(right, PubKind::Replace),
        PubKind::Drop => matches!(right, PubKind::Drop),
        PubKind::Reset => matches!(right, PubKind::Reset),
    }
}

/// Whether a publication has what another one must have to repeat it.
pub fn is_like(like: &Publication, row: &Publication) -> bool
    ensures { result ≡ is_like like.now row.now }
{
    same_kind(row.kind, like.kind)
        && row.group == like.group
        && row.source == like.source
        && same_ids(row.adds.as_slice(), like.adds.as_slice())
        && same_ids(row.empties.as_slice(), like.empties.as_slice())
        && same_spans(row.spans.as_slice(), like.spans.as_slice())
        && same_ranges(&row.ranges, &like.ranges)
}

/// Whether a reset of its stream makes the publications before it count no more for this one.
pub fn may_be_forgotten(like: &Publication) -> bool
    ensures { result ≡ (is_empty like.now.adds && is_empty like.now.empties) }
{
    like.adds.as_slice().is_empty() && like.empties.as_slice().is_empty()
}

/// Whether the row is such a reset.
pub fn forgets(like: &Publication, row: &Publication) -> bool
    ensures { result ≡ forgets like.now row.now }
{
    may_be_forgotten(like)
        && same_kind(row.kind, PubKind::Reset)
        && row.source == like.source
        && is_of_same_stream(&row.ranges, &like.ranges)
}
