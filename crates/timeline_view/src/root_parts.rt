//! The contents of a source.

ghost use Rattle.std.specs.Prelude.{◌≡◌, ◌&&◌, ◌+◌, ◌<◌, ◌<ℤ◌, ◌≤◌, IfOk, List, OnOk, Some, int_lt, length, slice_get, slice_index_or, true, ℕ};
ghost use Rattle.std.specs.Ordering.{int_eq};
ghost use Rattle.seg_names.specs.declared.seg_id.SegId.{SegId};
ghost use Rattle.book_rows.specs.Shown.{contents_of, roots_agree};
ghost use Rattle.book_rows.specs.Lists.{In};
ghost use Rattle.row_index.specs.Index.{IsIndexed};
ghost use Rattle.timeline_view.specs.Marks.{AreRootsOf, current, mark_keys};
ghost use Rattle.timeline_view.specs.Contents.{AreAscending, AreContentsOf, Between, Within, put_root, put_roots};
ghost use Rattle.timeline_view.specs.Turns.{AreTurns, DoTurnsRise};
ghost use Rattle.timeline_view.specs.declared.turns.Turn.{Turn};

use crate::chunk_parts::covers_of;
use crate::ids::same_ids;
use crate::marks::{Mark, mark_at, marks_of, roots_of};
use crate::sweep::{Stretch, stretch_at, stretches};
use crate::turns::{Turn, turn_keys, turns_before, turns_of};
use book_rows::{ContentsPart, Items};
use iv_span::{OutOfMemory, Span};
use row_index::Keys;
use seg_names::{Name, SegId};
use std::alloc::Global;
use tab_segments::Segments;

// Whether they touch and have the same roots.
fn roots_agree(last: &ContentsPart, next: &ContentsPart) -> bool
    ensures { result ≡ roots_agree last.now next.now }
{
    last.span.end() == next.span.start() && same_ids(last.roots.as_slice(), next.roots.as_slice())
}

fn span_of(start: i64, end: i64) -> Span
    requires { start <ℤ end }
    ensures { result ≡ record { start = start; end = end } }
{
    match Span::new(start, end) {
        Ok(span) => span,
        Err(_) => unreachable!(),
    }
}

// The part, to the end of a span that touches it.
fn lengthened(part: ContentsPart, next: Span) -> ContentsPart
    requires { part.span.end ≡ next.start }
    ensures { result ≡ record part { span = record { start = part.span.start; end = next.end } } }
{
    let ContentsPart { span, roots } = part;
    ContentsPart {
        span: span_of(span.start(), next.end()),
        roots,
    }
}

// Puts the part behind the others, or joins it to the last one.
#[tactic(auto, using(laws_parts::proofs::Building::put_at_end))]
fn put_root(parts: &mut Vec<ContentsPart>, next: ContentsPart) -> Result<(), OutOfMemory>
    ensures { OnOk result (parts.new.items ≡ put_root parts.old.items next) }
{
    let Some(last) = parts.pop() else {
        parts.push(next)?;
        return Ok(());
    };
    if roots_agree(&last, &next) {
        parts.push(lengthened(last, next.span))?;
        return Ok(());
    }
    parts.push(last)?;
    parts.push(next)?;
    Ok(())
}

// Puts the roots of a piece behind the others, where there are some.
fn put_roots(
    parts: &mut Vec<ContentsPart>,
    start: i64,
    end: i64,
    roots: Vec<SegId>,
) -> Result<(), OutOfMemory>
    requires { start <ℤ end }
    ensures { OnOk result (parts.new.items ≡ put_roots parts.old.items start end roots.items) }
{
    if roots.is_empty() {
        return Ok(());
    }
    put_root(
        parts,
        ContentsPart {
            span: span_of(start, end),
            roots: Items::from_vec(roots),
        },
    )
}

// Puts the roots of the marks of the version behind the others, which are the same throughout the
// piece.
fn put_piece(
    alloc: Global,
    marks: &[Mark],
    keys: &Keys,
    version: i64,
    piece: (i64, i64),
    parts: &mut Vec<ContentsPart>,
) -> Result<(), OutOfMemory>
    requires proper { piece.0 <ℤ piece.1 }
    requires indexed { IsIndexed mark_keys (λ s. current version piece.0 (slice_get marks.now s)) keys.now.entries }
    ensures { OnOk result ((roots : List SegId) × AreRootsOf marks.now version piece.0 roots × (parts.new.items ≡ put_roots parts.old.items piece.0 piece.1 roots)) }
{
    let roots = roots_of(alloc, marks, keys, version, piece.0)?;
    put_roots(parts, piece.0, piece.1, roots)?;
    Ok(())
}

// What the contents are built of: where which version is on top, the marks, and their starts and ends.
#[derive(Drop)]
struct Layout<'a> {
    stretches: &'a [Stretch],
    marks: &'a [Mark],
    turns: &'a [Turn],
}

fn turn_at(turns: &[Turn], at: usize) -> Turn
    requires { at < length turns.now }
    ensures { slice_get turns.now at ≡ Some result }
{
    turns[at]
}

// Whether a piece ends with the turn of a mark.
fn is_cut(mark: &Mark, version: i64, from: i64, at: i64) -> bool
    ensures { result ≡ (int_eq mark.now.version version && int_lt from at) }
{
    mark.version == version && from < at
}

// Puts the piece that ends with the turn of that place behind the others, where it is one. Answers
// where the next piece starts.
fn pass_turn(
    alloc: Global,
    layout: &Layout<'_>,
    stretch: &Stretch,
    at: usize,
    from: i64,
    keys: &mut Keys,
    parts: &mut Vec<ContentsPart>,
) -> Result<i64, OutOfMemory>
    requires turned { AreTurns layout.now.marks.now layout.now.turns.now }
    requires rise { DoTurnsRise layout.now.turns.now }
    requires among { In stretch.now layout.now.stretches.now }
    requires within { Within layout.now.stretches.now layout.now.marks.now layout.now.turns.now stretch.now at keys.old.entries parts.old.items from }
    requires bound { at < length layout.now.turns.now }
    requires early { (d : Turn) → int_lt (slice_index_or layout.now.turns.now at d).at stretch.now.end ≡ true }
    ensures { IfOk result (λ next. Within layout.now.stretches.now layout.now.marks.now layout.now.turns.now stretch.now (at + 1) keys.new.entries parts.new.items next) }
{
    let turn = turn_at(layout.turns, at);
    let mark = mark_at(layout.marks, turn.place);
    if !is_cut(mark, stretch.top.version, from, turn.at) {
        turn_keys(keys, turn, mark)?;
        return Ok(from);
    }
    put_piece(
        alloc,
        layout.marks,
        keys,
        stretch.top.version,
        (from, turn.at),
        parts,
    )?;
    turn_keys(keys, turn, mark)?;
    Ok(turn.at)
}

// Puts the pieces behind the others that end with a turn of these places within the stretch. Answers
// where its last piece starts.
fn pass_turns(
    alloc: Global,
    layout: &Layout<'_>,
    stretch: &Stretch,
    places: (usize, usize),
    keys: &mut Keys,
    parts: &mut Vec<ContentsPart>,
) -> Result<i64, OutOfMemory>
    requires turned { AreTurns layout.now.marks.now layout.now.turns.now }
    requires rise { DoTurnsRise layout.now.turns.now }
    requires among { In stretch.now layout.now.stretches.now }
    requires within { Within layout.now.stretches.now layout.now.marks.now layout.now.turns.now stretch.now places.0 keys.old.entries parts.old.items stretch.now.start }
    requires ordered { places.0 ≤ places.1 }
    requires bound { places.1 ≤ length layout.now.turns.now }
    requires early { (k : ℕ) (d : Turn) → k < places.1 → int_lt (slice_index_or layout.now.turns.now k d).at stretch.now.end ≡ true }
    ensures { IfOk result (λ from. Within layout.now.stretches.now layout.now.marks.now layout.now.turns.now stretch.now places.1 keys.new.entries parts.new.items from) }
{
    let mut from = stretch.start;
    for at in places.0..places.1 {
        from = pass_turn(alloc, layout, stretch, at, from, keys, parts)?;
    }
    Ok(from)
}

// Puts the parts of the stretch of that place behind the others. The turns up to the first place
// are taken; answers up to which place they are then.
fn pass_stretch(
    alloc: Global,
    layout: &Layout<'_>,
    place: usize,
    next: usize,
    keys: &mut Keys,
    parts: &mut Vec<ContentsPart>,
) -> Result<usize, OutOfMemory>
    requires ascend { AreAscending layout.now.stretches.now }
    requires turned { AreTurns layout.now.marks.now layout.now.turns.now }
    requires rise { DoTurnsRise layout.now.turns.now }
    requires bound { place < length layout.now.stretches.now }
    requires between { Between layout.now.stretches.now layout.now.marks.now layout.now.turns.now place next keys.old.entries parts.old.items }
    ensures { IfOk result (λ to. Between layout.now.stretches.now layout.now.marks.now layout.now.turns.now (place + 1) to keys.new.entries parts.new.items) }
{
    let stretch = stretch_at(layout.stretches, place);
    let to = turns_before(layout.turns, stretch.end);
    let from = pass_turns(alloc, layout, stretch, (next, to), keys, parts)?;
    put_piece(
        alloc,
        layout.marks,
        keys,
        stretch.top.version,
        (from, stretch.end),
        parts,
    )?;
    Ok(to)
}

// The parts within the stretches, cut where a mark of the version on top starts or ends.
fn parts_of(alloc: Global, layout: &Layout<'_>) -> Result<Vec<ContentsPart>, OutOfMemory>
    requires ascend { AreAscending layout.now.stretches.now }
    requires turned { AreTurns layout.now.marks.now layout.now.turns.now }
    requires rise { DoTurnsRise layout.now.turns.now }
    ensures { IfOk result (λ v. AreContentsOf layout.now.stretches.now layout.now.marks.now v.items) }
{
    let mut parts = Vec::new(alloc);
    let mut keys = Keys::new(alloc);
    let mut next = 0;
    for place in 0..layout.stretches.len() {
        next = pass_stretch(alloc, layout, place, next, &mut keys, &mut parts)?;
    }
    Ok(parts)
}

/// The longest spans in which the same roots of the source are visible, ascending, each with these
/// roots. A visible segment counts within its root's own span, and where it isn't a tombstone. The
/// error is want of memory.
pub fn contents(
    alloc: Global,
    segments: &Segments,
    source: &Name,
) -> Result<Vec<ContentsPart>, OutOfMemory>
    ensures { IfOk result (λ v. v.items ≡ contents_of segments.now.segments source.now) }
{
    let rows = segments.rows_of(alloc, source)?;
    let covers = covers_of(alloc, &rows)?;
    let stretches = stretches(alloc, &covers)?;
    let marks = marks_of(alloc, &rows)?;
    let turns = turns_of(alloc, &marks)?;
    let layout = Layout {
        stretches: &stretches,
        marks: &marks,
        turns: &turns,
    };
    let parts = parts_of(alloc, &layout)?;
    Ok(parts)
}
