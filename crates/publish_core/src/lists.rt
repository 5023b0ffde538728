//! Lists of ids that stand in order.
ghost use Rattle.std.specs.Prelude.{◌≡◌, Bool, filter, find, map, not, true};
ghost use Rattle.std.specs.Option.{option_copied};
ghost use Rattle.seg_names.specs.declared.seg_id.SegId.{SegId};
ghost use Rattle.book_rows.specs.Ids.{id_before, is_of_span};
ghost use Rattle.book_rows.specs.Lists.{list_links};
ghost use Rattle.book_rows.specs.Over.{both_in_order};
ghost use Rattle.book_rows.specs.Spans.{span_at_most};
ghost use Rattle.publish_core.specs.Both.{earlier};

use crate::spans::is_at_most;
use iv_span::Span;
use seg_names::SegId;
use std::cmp::Ordering;

/// A test of ids.
pub trait IdTest: Drop {
    ghost passes: { Self → SegId → Bool };

    /// Whether the id passes.
    fn passes(&self, id: &SegId) -> bool
        ensures { result ≡ passes self.now id.now };
}

fn comes_before(left: &SegId, right: &SegId) -> bool
    ensures { result ≡ id_before left.now right.now }
{
    matches!(left.cmp(right), Ordering::Less)
}

fn first_failing<'a, T: IdTest>(ids: &'a [SegId], test: &T) -> Option<&'a SegId>
    ensures { option_copied result ≡ find (λ a. not (T.passes test.now a)) ids.now }
{
    for id in ids {
        if !test.passes(id) {
            return Some(id);
        }
    }
    None
}

// The one that comes first in id order.
fn earlier<'a>(left: Option<&'a SegId>, right: Option<&'a SegId>) -> Option<&'a SegId>
    ensures { option_copied result ≡ earlier (option_copied left.entry) (option_copied right.entry) }
{
    match (left, right) {
        (Some(one), Some(other)) if comes_before(other, one) => Some(other),
        (Some(one), _) => Some(one),
        (None, other) => other,
    }
}

/// The first of ids and tombstones, together in id order, that fails.
pub fn first_of_both<'a, T: IdTest>(
    ids: &'a [SegId],
    tombstones: &'a [SegId],
    test: &T,
) -> Option<&'a SegId>
    requires ids { list_links id_before ids.now ≡ true }
    requires tombstones { list_links id_before tombstones.now ≡ true }
    ensures { option_copied result ≡ find (λ a. not (T.passes test.now a)) (both_in_order ids.now tombstones.now) }
{
    earlier(first_failing(ids, test), first_failing(tombstones, test))
}

/// The ids of a span, of ids whose spans stand in order.
pub fn ids_of<'a>(ids: &'a [SegId], span: Span) -> &'a [SegId]
    requires { list_links span_at_most (map (λ a. a.span) ids.now) ≡ true }
    ensures { result.now ≡ filter (is_of_span span) ids.now }
{
    let before = ids.partition_point(|id| !is_at_most(span, id.span));
    let (_, rest) = ids.split_at(before);
    let count = rest.partition_point(|id| is_at_most(id.span, span));
    let (own, _) = rest.split_at(count);
    own
}
