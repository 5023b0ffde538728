//! Whether ids and tombstones fill the spans.
ghost use Rattle.std.specs.Prelude.{◌≡◌, ◌∷◌, IfNone, IfOk, Option, [], find, length, map, not, true};
ghost use Rattle.std.specs.List.{range_with_len};
ghost use Rattle.std.specs.Option.{option_copied};
ghost use Rattle.book_rows.specs.Ids.{id_before};
ghost use Rattle.book_rows.specs.Lists.{ascending, list_links, same_numbers};
ghost use Rattle.book_rows.specs.Over.{bad_span, both_in_order, is_filled, is_placed, is_whole_set};
ghost use Rattle.book_rows.specs.Publications.{in_spans};
ghost use Rattle.book_rows.specs.Spans.{span_at_most};
ghost use Rattle.book_rows.specs.declared.rows.Ranges.{Ranges};
ghost use Rattle.apart_spans.specs.Apart.{are_apart};

use crate::OutOfMemory;
use crate::lists::{IdTest, first_of_both, ids_of};
use crate::spans::{first_overlap, is_listed};
use iv_span::Span;
use lock_posse::sorted;
use seg_names::{Name, SegId};
use std::alloc::Global;

// ---- the place of an id

/// The ids of a source that have one of these spans.
#[derive(Drop)]
struct Placed<'a> {
    source: &'a Name,
    spans: &'a [Span],
    ghost apart: { are_apart spans.now ≡ true },
}

impl IdTest for Placed<'_> {
    ghost passes = { λ q a. is_placed q.source.now q.spans.now a };

    fn passes(&self, id: &SegId) -> bool {
        id.source == *self.source && is_listed(self.spans, id.span)
    }
}

fn first_misplaced<'a>(
    source: &Name,
    spans: &[Span],
    ids: &'a [SegId],
    tombstones: &'a [SegId],
) -> Option<&'a SegId>
    requires apart { are_apart spans.now ≡ true }
    requires ids { list_links id_before ids.now ≡ true }
    requires tombstones { list_links id_before tombstones.now ≡ true }
    ensures { option_copied result ≡ find (λ a. not (is_placed source.now spans.now a)) (both_in_order ids.now tombstones.now) }
{
    first_of_both(ids, tombstones, &Placed { source, spans })
}

// ---- the parts of a span

// The parts of the ids, ascending.
fn parts_of(alloc: Global, ids: &[SegId]) -> Result<Vec<u64>, OutOfMemory>
    ensures { IfOk result (λ v. v.items ≡ ascending (map (λ a. a.part) ids.now)) }
{
    let parts = ids.iter().map(|id| u64::from(id.part)).collect(alloc)?;
    sorted(parts)
}

fn counts_up(parts: &[u64]) -> bool
    ensures { result ≡ same_numbers parts.now (range_with_len 0 (length parts.now)) }
{
    let mut next = 0;
    for part in parts {
        if *part != next {
            return false;
        }
        next += 1;
    }
    true
}

// Whether the parts of the ids are those from 0 on without a gap, and there is one.
fn is_whole(alloc: Global, ids: &[SegId]) -> Result<bool, OutOfMemory>
    ensures { IfOk result (λ whole. whole ≡ is_whole_set (ascending (map (λ a. a.part) ids.now))) }
{
    let parts = parts_of(alloc, ids)?;
    Ok(!parts.is_empty() && counts_up(parts.as_slice()))
}

fn is_first_alone(tombstones: &[SegId]) -> bool
    ensures { result ≡ same_numbers (ascending (map (λ a. a.part) tombstones.now)) (0 ∷ []) }
{
    match tombstones {
        [only] => only.part == 0,
        _ => false,
    }
}

fn is_filled(
    alloc: Global,
    ids: &[SegId],
    tombstones: &[SegId],
    span: Span,
) -> Result<bool, OutOfMemory>
    requires ids { list_links span_at_most (map (λ a. a.span) ids.now) ≡ true }
    requires tombstones { list_links span_at_most (map (λ a. a.span) tombstones.now) ≡ true }
    ensures { IfOk result (λ filled. filled ≡ is_filled ids.now tombstones.now span) }
{
    let own = ids_of(ids, span);
    let covering = ids_of(tombstones, span);
    if covering.is_empty() {
        return is_whole(alloc, own);
    }
    Ok(own.is_empty() && is_first_alone(covering))
}

fn first_unfilled(
    alloc: Global,
    spans: &[Span],
    ids: &[SegId],
    tombstones: &[SegId],
) -> Result<Option<Span>, OutOfMemory>
    requires ids { list_links span_at_most (map (λ a. a.span) ids.now) ≡ true }
    requires tombstones { list_links span_at_most (map (λ a. a.span) tombstones.now) ≡ true }
    ensures { IfOk result (λ found. found ≡ find (λ s. not (is_filled ids.now tombstones.now s)) spans.now) }
{
    for span in spans {
        if !is_filled(alloc, ids, tombstones, *span)? {
            return Ok(Some(*span));
        }
    }
    Ok(None)
}

// ---- the spans

/// The first span that isn't filled as the rules ask: one that overlaps an earlier one, else that of
/// the first id that has another source or span, else one without a whole set of ids or one tombstone.
pub fn bad_span(
    alloc: Global,
    source: &Name,
    spans: &[Span],
    ids: &[SegId],
    tombstones: &[SegId],
) -> Result<Option<Span>, OutOfMemory>
    requires spans { list_links span_at_most spans.now ≡ true }
    requires ids { list_links id_before ids.now ≡ true }
    requires tombstones { list_links id_before tombstones.now ≡ true }
    ensures bad { (ranges : Option Ranges) → IfOk result (λ found. found ≡ bad_span source.now (in_spans spans.now ids.now tombstones.now ranges)) }
    ensures apart { IfOk result (λ found. IfNone found (are_apart spans.now ≡ true)) }
{
    if let Some(span) = first_overlap(spans) {
        return Ok(Some(span));
    }
    if let Some(id) = first_misplaced(source, spans, ids, tombstones) {
        return Ok(Some(id.span));
    }
    first_unfilled(alloc, spans, ids, tombstones)
}
