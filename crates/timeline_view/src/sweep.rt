//! The cover that is on top at each instant, as a list of stretches.

ghost use Rattle.std.specs.Prelude.{◌≡◌, ◌<◌, ◌∷◌, ◌++◌, [], IfOk, IfSome, IfNone, OnOk, OnErr, Some, length, slice_get};
ghost use Rattle.std.specs.BinaryHeap.{IsHeap, heap_items, KeepsHeap};
ghost use Rattle.timeline_view.specs.Sweep.{AreEnds, AreStretches, DoRise, IsTopAfter, cover_cmp, end_of, start_of, KeepsLater, put_stretch, stretch_joined, stretches_agree};

use iv_span::{OutOfMemory, Span};
use std::alloc::Global;
use std::collections::BinaryHeap;

/// A chunk: a span with a version, which covers what has a lower one there. Of two the greater one
/// is on top: by version, then start, then end.
#[derive(Clone, Copy, Debug, PartialEq, Eq, PartialOrd, Ord)]
pub struct Cover {
    pub version: i64,
    pub span: Span,
}

/// The start or the end of a cover.
#[derive(Clone, Copy, Debug, PartialEq, Eq, PartialOrd, Ord)]
pub struct Event {
    pub at: i64,
    pub enters: bool,
    pub cover: Cover,
}

/// The instants from a start to an end, in which one cover is on top.
#[derive(Clone, Copy, Debug)]
pub struct Stretch {
    pub start: i64,
    pub end: i64,
    pub top: Cover,
}

fn push_ends(events: &mut Vec<Event>, cover: Cover) -> Result<(), OutOfMemory>
    ensures { OnOk result (events.new.items ≡ events.old.items ++ start_of cover ∷ end_of cover ∷ []) }
{
    events.push(Event {
        at: cover.span.start(),
        enters: true,
        cover,
    })?;
    events.push(Event {
        at: cover.span.end(),
        enters: false,
        cover,
    })?;
    Ok(())
}

/// The starts and ends of the covers, by their instants.
fn ends_of(alloc: Global, covers: &[Cover]) -> Result<Vec<Event>, OutOfMemory>
    ensures all { IfOk result (λ v. AreEnds covers.now v.items) }
    ensures rise { IfOk result (λ v. DoRise v.items) }
{
    let mut events = Vec::new(alloc);
    for cover in covers {
        push_ends(&mut events, *cover)?;
    }
    events.sort()?;
    Ok(events)
}

/// The greatest of those that end after the instant; greater ones that don't are taken out.
fn top_after(heap: &mut BinaryHeap<Cover>, now: i64) -> Option<Cover>
    requires { IsHeap cover_cmp (heap_items heap.old) }
    ensures ordered { IsHeap cover_cmp (heap_items heap.new) }
    ensures kept { KeepsLater now (heap_items heap.old) (heap_items heap.new) }
    ensures top { IfSome result (λ c. IsTopAfter now (heap_items heap.new) c) }
    ensures none { IfNone result (heap_items heap.new ≡ []) }
{
    while let Some(greatest) = heap.peek() {
        let greatest = *greatest;
        if now < greatest.span.end() {
            return Some(greatest);
        }
        heap.pop();
    }
    None
}

/// The stretch at a place.
pub fn stretch_at(stretches: &[Stretch], at: usize) -> &Stretch
    requires { at < length stretches.now }
    ensures { slice_get stretches.now at ≡ Some result.now }
{
    &stretches[at]
}

// Whether they touch and have one cover.
fn stretches_agree(last: &Stretch, next: &Stretch) -> bool
    ensures { result ≡ stretches_agree last.now next.now }
{
    last.end == next.start && last.top == next.top
}

fn stretch_joined(last: &Stretch, next: &Stretch) -> Stretch
    ensures { result ≡ stretch_joined last.now next.now }
{
    Stretch {
        start: last.start,
        end: next.end,
        top: last.top,
    }
}

/// Puts the stretch behind the others, or joins it to the last one.
#[tactic(auto, using(laws_parts::proofs::Building::put_at_end))]
fn put_stretch(stretches: &mut Vec<Stretch>, next: Stretch) -> Result<(), OutOfMemory>
    ensures { OnOk result (stretches.new.items ≡ put_stretch stretches.old.items next) }
{
    let Some(last) = stretches.pop() else {
        stretches.push(next)?;
        return Ok(());
    };
    if stretches_agree(&last, &next) {
        stretches.push(stretch_joined(&last, &next))?;
        return Ok(());
    }
    stretches.push(last)?;
    stretches.push(next)?;
    Ok(())
}

/// The longest stretches in which one cover is on top, ascending.
pub fn stretches(alloc: Global, covers: &[Cover]) -> Result<Vec<Stretch>, OutOfMemory>
    ensures { IfOk result (λ v. AreStretches covers.now v.items) }
{
    let events = ends_of(alloc, covers)?;
    let mut heap = BinaryHeap::new(alloc);
    let mut stretches = Vec::new(alloc);
    let Some(first) = events.first() else {
        return Ok(stretches);
    };
    let mut now = first.at;
    for event in &events {
        if now < event.at {
            if let Some(top) = top_after(&mut heap, now) {
                let next = Stretch {
                    start: now,
                    end: event.at,
                    top,
                };
                put_stretch(&mut stretches, next)?;
            }
            now = event.at;
        }
        if event.enters {
            heap.push(event.cover)?;
        }
    }
    Ok(stretches)
}
