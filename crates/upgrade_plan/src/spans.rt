//! The ids of a span among those of a publish.
ghost use Rattle.std.specs.Prelude.{◌≡◌, ◌≤◌, filter, length, true};
ghost use Rattle.book_rows.specs.Form.{is_few, item_limit};
ghost use Rattle.book_rows.specs.Ids.{is_of_span};
ghost use Rattle.book_rows.specs.Rewrite.{core_of};
ghost use Rattle.book_rows.specs.Spans.{span_at_most};
ghost use Rattle.upgrade_plan.specs.BySpan.{spans_ascend};

use crate::ids::same_span;
use iv_span::Span;
use seg_names::SegId;

fn is_at_most(left: Span, right: Span) -> bool
    ensures { result ≡ span_at_most left right }
{
    left.start() < right.start() || (left.start() == right.start() && left.end() <= right.end())
}

// Whether no span stands behind a later one.
fn spans_ascend(ids: &[SegId]) -> bool
    ensures { result ≡ spans_ascend ids.now }
{
    let Some((first, rest)) = ids.split_first() else {
        return true;
    };
    let mut last = first;
    for id in rest {
        if !is_at_most(last.span, id.span) {
            return false;
        }
        last = id;
    }
    true
}

// The ids without those of spans before this one.
fn not_before<'a>(ids: &'a [SegId], span: Span) -> &'a [SegId]
    requires { spans_ascend ids.now ≡ true }
    ensures same { filter (is_of_span span) result.now ≡ filter (is_of_span span) ids.now }
    ensures ascend { spans_ascend result.now ≡ true }
{
    let from = ids.partition_point(|id| !is_at_most(span, id.span));
    &ids[from..]
}

// The ids without those of spans after this one.
fn not_after<'a>(ids: &'a [SegId], span: Span) -> &'a [SegId]
    requires { spans_ascend ids.now ≡ true }
    ensures { filter (is_of_span span) result.now ≡ filter (is_of_span span) ids.now }
{
    let to = ids.partition_point(|id| is_at_most(id.span, span));
    &ids[..to]
}

/// Ids of which those of a span are looked for.
///
/// The ids of a command are of one source and in id order, so that their spans ascend and those of
/// one span are found by bisection. Nothing is asked of other ids: each of them is looked at.
#[derive(Clone, Copy)]
pub struct SpanIds<'a> {
    ids: &'a [SegId],
    ascend: bool,
    ghost ascending: { ascend ≡ true → spans_ascend ids.now ≡ true },
}

impl<'a> SpanIds<'a> {
    /// These ids.
    pub fn new(ids: &'a [SegId]) -> SpanIds<'a>
        ensures { result.ids.now ≡ ids.entry.now }
    {
        SpanIds {
            ids,
            ascend: spans_ascend(ids),
        }
    }

    /// Some of the ids, among them all of the span.
    pub fn near(&self, span: Span) -> &'a [SegId]
        ensures { filter (is_of_span span) result.now ≡ filter (is_of_span span) self.now.ids.now }
    {
        if self.ascend {
            not_after(not_before(self.ids, span), span)
        } else {
            self.ids
        }
    }
}

fn count_of(ids: &[SegId], span: Span) -> usize
    ensures { result ≡ length (filter (is_of_span span) ids.now) }
{
    let mut count = 0;
    for id in ids {
        if same_span(id.span, span) {
            count += 1;
        }
    }
    count
}

/// How many parts make the chunk of the span whole: the number of its ids, and 1 for a tombstone.
pub fn core_of(ids: &SpanIds<'_>, span: Span) -> u32
    requires { is_few ids.now.ids.now ≡ true }
    ensures core { result ≡ core_of ids.now.ids.now span }
    ensures few { result ≤ item_limit }
{
    match count_of(ids.near(span), span) {
        0 => 1,
        count => count as u32,
    }
}
