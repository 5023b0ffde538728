//! The timeline of one source, kept.
ghost use Rattle.std.specs.Prelude.{◌≡◌, ◌≤◌, [], IfOk, OnErr, OnOk, length, map};
ghost use Rattle.std.specs.List.{replace_range};
ghost use Rattle.book_rows.specs.Shown.{timeline_part};
ghost use Rattle.iv_span.specs.Condensed.{AreApart};
ghost use Rattle.iv_span.specs.Extent.{Extent};
ghost use Rattle.timeline_kept.specs.Filling.{IsFilled, StartsWith};
ghost use Rattle.timeline_kept.specs.Shown.{AreMaximal, AreShown, given_over, shown_at};

use crate::OutOfMemory;
use crate::between::put_between;
use crate::edges::{left_edge, right_edge};
use crate::part_list::PartList;
use book_rows::TimelinePart;
use iv_span::{Span, condense};
use std::alloc::Global;
use std::marker::Model;

/// Parts that stand in the place of others.
#[derive(Drop)]
struct Window {
    from: usize,
    to: usize,
    parts: PartList,
}

// Fills the window from its start up to the end of the last span, and answers that end.
fn fill(
    alloc: Global,
    list: &PartList,
    fresh: &PartList,
    spans: &[Span],
    start: i64,
    out: &mut PartList,
) -> Result<i64, OutOfMemory>
    requires list { AreMaximal list.now }
    requires fresh { AreMaximal fresh.now }
    requires begun { IsFilled start (given_over spans.now (shown_at fresh.now) (shown_at list.now)) list.now fresh.now spans.now start out.old }
    ensures { IfOk result (λ at. IsFilled start (given_over spans.now (shown_at fresh.now) (shown_at list.now)) list.now fresh.now [] at out.new) }
{
    let mut at = start;
    for span in spans {
        put_between(alloc, list, at, span.start(), out)?;
        put_between(alloc, fresh, span.start(), span.end(), out)?;
        at = span.end();
    }
    Ok(at)
}

// The parts that a change of the spans, of which this is the first, puts in the place of others.
fn window_of(
    alloc: Global,
    list: &PartList,
    fresh: &PartList,
    spans: &[Span],
    first: Span,
) -> Result<Window, OutOfMemory>
    requires list { AreMaximal list.now }
    requires fresh { AreMaximal fresh.now }
    requires apart { AreApart spans.now }
    requires first { StartsWith first spans.now }
    ensures order { IfOk result (λ w. w.from ≤ w.to) }
    ensures bound { IfOk result (λ w. w.to ≤ length list.now) }
    ensures shown { IfOk result (λ w. AreShown (given_over spans.now (shown_at fresh.now) (shown_at list.now)) (replace_range list.now w.from w.to w.parts)) }
{
    let (from, start) = left_edge(list, first.start());
    let mut parts = PartList::new(alloc);
    let at = fill(alloc, list, fresh, spans, start, &mut parts)?;
    let (to, end) = right_edge(list, at);
    put_between(alloc, list, at, end, &mut parts)?;
    Ok(Window { from, to, parts })
}

// Puts what the fresh list shows in the spans in the place of what the list shows there.
fn change(
    alloc: Global,
    list: &mut PartList,
    fresh: &PartList,
    spans: &[Span],
) -> Result<(), OutOfMemory>
    requires list { AreMaximal list.old }
    requires fresh { AreMaximal fresh.now }
    ensures ok { OnOk result (AreShown (given_over spans.now (shown_at fresh.now) (shown_at list.old)) list.new) }
    ensures err { OnErr result (list.new ≡ list.old) }
{
    let pieces = condense(alloc, spans)?;
    let Some(first) = pieces.first() else {
        return Ok(());
    };
    let Window { from, to, parts } = window_of(alloc, list, fresh, &pieces, *first)?;
    list.replace(from, to, parts)
}

/// The kept parts of a source. They ascend, and no two of them touch and have one chunk and the same
/// ids.
#[derive(Drop)]
pub struct Timeline {
    list: PartList,
}

impl Model for Timeline {
    ghost use Rattle.std.specs.Prelude.{List};
    ghost use Rattle.book_rows.specs.Shown.{ChunkPart};
    ghost use Rattle.timeline_kept.specs.Shown.{AreMaximal};

    ghost Value = { List ChunkPart };

    ghost view = { λ a. a.list };

    ghost invariant = { λ a. AreMaximal a.list };
}

impl Timeline {
    /// No parts.
    pub fn new(alloc: Global) -> Timeline
        ensures { result ≡ [] }
    {
        Timeline {
            list: PartList::new(alloc),
        }
    }

    /// These parts.
    pub fn from_list(list: PartList) -> Timeline
        requires { AreMaximal list }
        ensures { result ≡ list }
    {
        Timeline { list }
    }

    /// The parts, lent.
    pub fn as_slice(&self) -> &[TimelinePart]
        ensures { result.now ≡ map timeline_part self.now }
    {
        self.list.as_slice()
    }

    /// In the spans it shows what the fresh one shows, and elsewhere what it showed. The error is
    /// want of memory, and leaves the timeline as it was.
    pub fn change(
        &mut self,
        alloc: Global,
        fresh: &Timeline,
        spans: &[Span],
    ) -> Result<(), OutOfMemory>
        ensures ok { OnOk result (AreShown (given_over spans.now (shown_at fresh.now) (shown_at self.old)) self.new) }
        ensures err { OnErr result (self.new ≡ self.old) }
    {
        change(alloc, &mut self.list, &fresh.list, spans)
    }
}
