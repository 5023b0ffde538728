//! A list of parts, each with the span of its chunk.
ghost use Rattle.std.specs.Prelude.{◌&&◌, ◌∷◌, ◌++◌, ◌≡◌, ◌<◌, ◌<ℤ◌, ◌≤◌, [], IfNone, IfSome, List, OnErr, OnOk, Some, length, map, slice_get};
ghost use Rattle.std.specs.List.{insert_slice, remove_range, replace_range, slice_range};
ghost use Rattle.std.specs.Ordering.{int_eq};
ghost use Rattle.seg_names.specs.Ids.{same_extent};
ghost use Rattle.book_rows.specs.Shown.{agree, timeline_part};
ghost use Rattle.timeline_kept.specs.PartLists.{put_part, with_chunk};

use crate::OutOfMemory;
use book_rows::TimelinePart;
use iv_span::Span;
use std::alloc::Global;
use std::marker::Model;
use timeline_view::same_ids;

/// Parts of a timeline, each with the span of its chunk.
///
/// A part of which each segment is a tombstone names no id, so its chunk isn't told by the part
/// itself. The chunks stand in a list of their own, since the parts are lent as they are.
#[derive(Drop)]
pub struct PartList {
    parts: Vec<TimelinePart>,
    chunks: Vec<Span>,
}

impl Model for PartList {
    ghost use Rattle.std.specs.Prelude.{◌≡◌, List, length};
    ghost use Rattle.book_rows.specs.Shown.{ChunkPart};
    ghost use Rattle.timeline_kept.specs.PartLists.{with_chunks};

    ghost Value = { List ChunkPart };

    ghost view = { λ a. with_chunks a.parts.items a.chunks.items };

    ghost invariant = { λ a. length a.parts.items ≡ length a.chunks.items };
}

// ---- items of one list

// Adds an item at the end. Where memory lacks, the item is dropped.
fn push_to<T: Drop>(items: &mut Vec<T>, item: T) -> Result<(), OutOfMemory>
    ensures ok { OnOk result (items.new.items ≡ items.old.items ++ item ∷ []) }
    ensures err { OnErr result (items.new.items ≡ items.old.items) }
{
    items.push(item)?;
    Ok(())
}

// Moves the items from `len` on to the place `to`.
fn bring<T>(items: &mut [T], to: usize, len: usize)
    requires order { to ≤ len }
    requires bound { len ≤ length items.old }
    ensures { (front back : List T) → items.old ≡ front ++ back → length front ≡ len → items.new ≡ insert_slice front to back }
{
    items[to..].rotate_left(len - to);
}

// Moves the items from `start` up to `end` behind the others.
fn move_to_end<T>(items: &mut [T], start: usize, end: usize)
    requires order { start ≤ end }
    requires bound { end ≤ length items.old }
    ensures { items.new ≡ remove_range items.old start end ++ slice_range items.old start end }
{
    items[start..].rotate_left(end - start);
}

// Puts the items from `len` on in the place of those from `from` up to `to`.
fn turn<T: Drop>(items: &mut Vec<T>, from: usize, to: usize, len: usize)
    requires order { from ≤ to }
    requires within { to ≤ len }
    requires bound { len ≤ length items.old.items }
    ensures { (front back : List T) → items.old.items ≡ front ++ back → length front ≡ len → items.new.items ≡ replace_range front from to back }
{
    let left = items.len() - (to - from);
    bring(items.as_mut_slice(), to, len);
    move_to_end(items.as_mut_slice(), from, to);
    items.truncate(left);
}

// ---- parts

/// The span of these ends.
pub fn span_of(start: i64, end: i64) -> Span
    requires { start <ℤ end }
    ensures { result ≡ record { start = start; end = end } }
{
    match Span::new(start, end) {
        Ok(span) => span,
        Err(_) => unreachable!(),
    }
}

// The part with another span.
fn respanned(part: TimelinePart, span: Span) -> TimelinePart
    ensures { result ≡ record part { span = span } }
{
    let TimelinePart {
        span: _,
        version,
        ids,
    } = part;
    TimelinePart { span, version, ids }
}

// The part, to the end of a span that touches it.
fn lengthened(part: TimelinePart, next: Span) -> TimelinePart
    requires { part.span.end ≡ next.start }
    ensures { result ≡ record part { span = record { start = part.span.start; end = next.end } } }
{
    let span = span_of(part.span.start(), next.end());
    respanned(part, span)
}

// Whether they touch, and their chunks have one span.
fn touch(last: &TimelinePart, last_chunk: Span, next: &TimelinePart, next_chunk: Span) -> bool
    ensures { result ≡ (int_eq last.now.span.end next.now.span.start && same_extent last_chunk next_chunk) }
{
    last.span.end() == next.span.start() && last_chunk == next_chunk
}

// Whether they touch, and have one chunk.
fn go_on(last: &TimelinePart, last_chunk: Span, next: &TimelinePart, next_chunk: Span) -> bool
    ensures { result ≡ (int_eq last.now.span.end next.now.span.start && same_extent last_chunk next_chunk && int_eq last.now.version next.now.version) }
{
    touch(last, last_chunk, next, next_chunk) && last.version == next.version
}

// Whether they touch, and have one chunk and the same ids.
fn agree(last: &TimelinePart, last_chunk: Span, next: &TimelinePart, next_chunk: Span) -> bool
    ensures { result ≡ agree (with_chunk last.now last_chunk) (with_chunk next.now next_chunk) }
{
    go_on(last, last_chunk, next, next_chunk) && same_ids(last.ids.as_slice(), next.ids.as_slice())
}

impl PartList {
    /// No parts.
    pub fn new(alloc: Global) -> PartList
        ensures { result ≡ [] }
    {
        PartList {
            parts: Vec::new(alloc),
            chunks: Vec::new(alloc),
        }
    }

    /// How many parts there are.
    pub fn len(&self) -> usize
        ensures { result ≡ length self.now }
    {
        self.parts.len()
    }

    /// The parts, lent.
    pub fn as_slice(&self) -> &[TimelinePart]
        ensures { result.now ≡ map timeline_part self.now }
    {
        self.parts.as_slice()
    }

    /// The part at a place, and the span of its chunk.
    pub fn part(&self, place: usize) -> (&TimelinePart, Span)
        requires { place < length self.now }
        ensures { slice_get self.now place ≡ Some (with_chunk result.0.now result.1) }
    {
        (&self.parts[place], self.chunks[place])
    }

    /// Adds a part at the end. The error is want of memory, and leaves the list as it was.
    pub fn push(&mut self, part: TimelinePart, chunk: Span) -> Result<(), OutOfMemory>
        ensures ok { OnOk result (self.new ≡ self.old ++ with_chunk part chunk ∷ []) }
        ensures err { OnErr result (self.new ≡ self.old) }
    {
        self.chunks.push(chunk)?;
        match push_to(&mut self.parts, part) {
            Ok(()) => Ok(()),
            Err(error) => {
                self.chunks.pop();
                Err(error)
            }
        }
    }

    fn pop(&mut self) -> Option<(TimelinePart, Span)>
        ensures some { IfSome result (λ last. self.old ≡ self.new ++ with_chunk last.0 last.1 ∷ []) }
        ensures none { IfNone result (self.old ≡ []) }
        ensures empty { IfNone result (self.new ≡ []) }
    {
        let part = self.parts.pop()?;
        match self.chunks.pop() {
            Some(chunk) => Some((part, chunk)),
            None => unreachable!(),
        }
    }

    /// Adds a part at the end, or joins it to the last one. After an error, which is want of memory,
    /// the last one may be missing.
    pub fn put(&mut self, part: TimelinePart, chunk: Span) -> Result<(), OutOfMemory>
        ensures { OnOk result (self.new ≡ put_part self.old (with_chunk part chunk)) }
    {
        let Some((last, last_chunk)) = self.pop() else {
            return self.push(part, chunk);
        };
        if agree(&last, last_chunk, &part, chunk) {
            return self.push(lengthened(last, part.span), last_chunk);
        }
        self.push(last, last_chunk)?;
        self.push(part, chunk)
    }

    /// Puts another list in the place of the parts from `from` up to `to`. The error is want of
    /// memory, and leaves the list as it was.
    pub fn replace(&mut self, from: usize, to: usize, other: PartList) -> Result<(), OutOfMemory>
        requires order { from ≤ to }
        requires bound { to ≤ length self.old }
        ensures ok { OnOk result (self.new ≡ replace_range self.old from to other) }
        ensures err { OnErr result (self.new ≡ self.old) }
    {
        let PartList {
            mut parts,
            mut chunks,
        } = other;
        let len = self.parts.len();
        self.chunks.append(&mut chunks)?;
        match self.parts.append(&mut parts) {
            Ok(()) => {
                turn(&mut self.parts, from, to, len);
                turn(&mut self.chunks, from, to, len);
                Ok(())
            }
            Err(error) => {
                self.chunks.truncate(len);
                Err(error)
            }
        }
    }
}
