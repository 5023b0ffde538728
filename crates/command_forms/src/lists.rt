//! Whether lists keep their limits and stand in order.
ghost use Rattle.std.specs.Prelude.{◌≡◌, length, nat_le, nat_lt, option_map};
ghost use Rattle.std.specs.List.{list_all};
ghost use Rattle.book_rows.specs.Lists.{list_links};
ghost use Rattle.book_rows.specs.Ids.{id_before};
ghost use Rattle.book_rows.specs.Spans.{is_span, span_at_most};
ghost use Rattle.book_rows.specs.Form.{is_id, is_offset, is_range, is_want, are_spans, are_ids, are_offsets, are_parts, are_ranges_of};

use crate::values::{is_id, is_name, is_span};
use book_rows::{
    ITEM_LIMIT, OFFSET_LIMIT, Offset, PARTITION_LIMIT, Range, Ranges, WANT_LIMIT, Want,
};
use iv_span::Span;
use seg_names::SegId;
use std::cmp::Ordering;

fn is_at_most(a: Span, b: Span) -> bool
    ensures { result ≡ span_at_most a b }
{
    a.start() < b.start() || (a.start() == b.start() && a.end() <= b.end())
}

fn comes_before(a: &SegId, b: &SegId) -> bool
    ensures { result ≡ id_before a.now b.now }
{
    matches!(a.cmp(b), Ordering::Less)
}

fn spans_ascend(spans: &[Span]) -> bool
    ensures { result ≡ list_links span_at_most spans.now }
{
    let Some((first, rest)) = spans.split_first() else {
        return true;
    };
    let mut last = *first;
    for span in rest {
        if !is_at_most(last, *span) {
            return false;
        }
        last = *span;
    }
    true
}

fn ids_ascend(ids: &[SegId]) -> bool
    ensures { result ≡ list_links id_before ids.now }
{
    let Some((first, rest)) = ids.split_first() else {
        return true;
    };
    let mut last = first;
    for id in rest {
        if !comes_before(last, id) {
            return false;
        }
        last = id;
    }
    true
}

fn offsets_ascend(offsets: &[Offset]) -> bool
    ensures { result ≡ list_links (λ a b. nat_lt a.partition b.partition) offsets.now }
{
    let Some((first, rest)) = offsets.split_first() else {
        return true;
    };
    let mut last = *first;
    for offset in rest {
        if last.partition >= offset.partition {
            return false;
        }
        last = *offset;
    }
    true
}

fn ranges_ascend(ranges: &[Range]) -> bool
    ensures { result ≡ list_links (λ a b. nat_lt a.partition b.partition) ranges.now }
{
    let Some((first, rest)) = ranges.split_first() else {
        return true;
    };
    let mut last = *first;
    for range in rest {
        if last.partition >= range.partition {
            return false;
        }
        last = *range;
    }
    true
}

fn have_spans(spans: &[Span]) -> bool
    ensures { result ≡ list_all is_span spans.now }
{
    spans.iter().all(|span| is_span(*span))
}

fn have_ids(ids: &[SegId]) -> bool
    ensures { result ≡ list_all is_id ids.now }
{
    ids.iter().all(is_id)
}

fn is_offset(offset: Offset) -> bool
    ensures { result ≡ is_offset offset }
{
    offset.partition <= PARTITION_LIMIT && offset.offset <= OFFSET_LIMIT
}

fn have_offsets(offsets: &[Offset]) -> bool
    ensures { result ≡ list_all is_offset offsets.now }
{
    offsets.iter().all(|offset| is_offset(*offset))
}

fn is_range(range: Range) -> bool
    ensures { result ≡ is_range range }
{
    range.partition <= PARTITION_LIMIT && range.start <= OFFSET_LIMIT && range.end <= OFFSET_LIMIT
}

fn have_ranges(ranges: &[Range]) -> bool
    ensures { result ≡ list_all is_range ranges.now }
{
    ranges.iter().all(|range| is_range(*range))
}

/// Whether they are spans, at least one and not too many, in order.
pub fn are_spans(spans: &[Span]) -> bool
    ensures { result ≡ are_spans spans.now }
{
    1 <= spans.len() && spans.len() <= ITEM_LIMIT && have_spans(spans) && spans_ascend(spans)
}

/// Whether they are distinct ids, not too many, in order.
pub fn are_ids(ids: &[SegId]) -> bool
    ensures { result ≡ are_ids ids.now }
{
    ids.len() <= ITEM_LIMIT && have_ids(ids) && ids_ascend(ids)
}

/// Whether they are offsets of distinct partitions, not too many, in order.
pub fn are_offsets(offsets: &[Offset]) -> bool
    ensures { result ≡ are_offsets offsets.now }
{
    offsets.len() <= ITEM_LIMIT && have_offsets(offsets) && offsets_ascend(offsets)
}

fn are_parts(parts: &[Range]) -> bool
    ensures { result ≡ are_parts parts.now }
{
    parts.len() <= ITEM_LIMIT && have_ranges(parts) && ranges_ascend(parts)
}

/// Whether they are ranges of a stream, at least one, or none are there.
pub fn are_ranges_of(ranges: Option<&Ranges>) -> bool
    ensures { result ≡ are_ranges_of (option_map (λ r. r.now) ranges.entry) }
{
    match ranges {
        Some(ranges) => {
            is_name(&ranges.stream)
                && !ranges.parts.as_slice().is_empty()
                && are_parts(ranges.parts.as_slice())
        }
        None => true,
    }
}

/// Whether there aren't too many wanted locks.
pub fn are_few_wants(wants: &[Want]) -> bool
    ensures { result ≡ nat_le (length wants.now) 64 }
{
    wants.len() <= WANT_LIMIT
}

/// Whether the wanted locks' spans are of instants.
pub fn have_wants(wants: &[Want]) -> bool
    ensures { result ≡ list_all is_want wants.now }
{
    wants.iter().all(|want| is_span(want.span))
}
