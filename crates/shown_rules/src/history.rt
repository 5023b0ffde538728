//! What segments show, and what publications put and take away, as events.
ghost use Rattle.std.specs.Prelude.{◌++◌, ◌<◌, ◌^◌, ◌≡◌, IfOk, OnOk, map, pos};
ghost use Rattle.std.specs.Int.{int_max, int_min};
ghost use Rattle.shown_rules.specs.History.{adds_root, all_publication_stages, all_row_stages, covers_below, publication_stages, puts_root, rank_of, row_stages, taken_by, takes_below, takes_since};

use crate::events::Event;
use book_rows::{PubKind, Publication, SegmentRow, SpanSince};
use row_search::OutOfMemory;
use seg_names::{Name, SegId};
use std::alloc::Global;

// ---- segments

// Where both the chunk and the root begin.
fn later_start(row: &SegmentRow) -> i64
    ensures { result ≡ int_max row.now.id.span.start row.now.root.span.start }
{
    row.id.span.start().max(row.root.span.start())
}

// Where one of them ends.
fn sooner_end(row: &SegmentRow) -> i64
    ensures { result ≡ int_min row.now.id.span.end row.now.root.span.end }
{
    row.id.span.end().min(row.root.span.end())
}

fn rank_of(version: i64) -> i128
    ensures { result ≡ rank_of version }
{
    -i128::from(version)
}

fn puts_root(row: &SegmentRow) -> Event<'_>
    ensures { result ≡ puts_root row.now }
{
    Event {
        rank: rank_of(row.id.version),
        source: &row.id.source,
        start: later_start(row),
        end: sooner_end(row),
        root: Some(&row.root),
    }
}

fn covers_below(row: &SegmentRow) -> Event<'_>
    ensures { result ≡ covers_below row.now }
{
    Event {
        rank: rank_of(row.id.version),
        source: &row.id.source,
        start: row.id.span.start(),
        end: row.id.span.end(),
        root: None,
    }
}

fn add_row<'a>(events: &mut Vec<Event<'a>>, row: &'a SegmentRow) -> Result<(), OutOfMemory>
    ensures { OnOk result (events.new.items ≡ events.old.items ++ row_stages row.now) }
{
    if !row.used {
        return Ok(());
    }
    if !row.tombstone {
        events.push(puts_root(row))?;
    }
    events.push(covers_below(row))?;
    Ok(())
}

/// What the segments show. The error is want of memory.
pub fn row_events(alloc: Global, rows: &[SegmentRow]) -> Result<Vec<Event<'_>>, OutOfMemory>
    ensures { IfOk result (λ v. v.items ≡ all_row_stages rows.now) }
{
    let mut events = Vec::new(alloc);
    for row in rows {
        add_row(&mut events, row)?;
    }
    Ok(events)
}

// ---- publications

fn adds_root<'a>(place: u64, source: &'a Name, root: &'a SegId) -> Event<'a>
    ensures { result ≡ adds_root place source.now root.now }
{
    Event {
        rank: -i128::from(place),
        source,
        start: root.span.start(),
        end: root.span.end(),
        root: Some(root),
    }
}

fn takes_below(place: u64, source: &Name, span: SpanSince) -> Event<'_>
    ensures { result ≡ takes_below place source.now span }
{
    Event {
        rank: -i128::from(place),
        source,
        start: span.span.start(),
        end: span.span.end(),
        root: None,
    }
}

fn add_taken<'a>(
    events: &mut Vec<Event<'a>>,
    place: u64,
    source: &'a Name,
    spans: &[SpanSince],
) -> Result<(), OutOfMemory>
    ensures { OnOk result (events.new.items ≡ events.old.items ++ map (takes_below place source.now) spans.now) }
{
    for span in spans {
        events.push(takes_below(place, source, *span))?;
    }
    Ok(())
}

fn add_replaced<'a>(
    events: &mut Vec<Event<'a>>,
    place: u64,
    source: &'a Name,
    spans: &[SpanSince],
) -> Result<(), OutOfMemory>
    ensures { OnOk result (events.new.items ≡ events.old.items ++ map (takes_since place source.now) spans.now) }
{
    for span in spans {
        events.push(takes_below(place.min(span.since), source, *span))?;
    }
    Ok(())
}

fn add_takes<'a>(
    events: &mut Vec<Event<'a>>,
    place: u64,
    publication: &'a Publication,
) -> Result<(), OutOfMemory>
    ensures { OnOk result (events.new.items ≡ events.old.items ++ taken_by publication.now.kind place publication.now.source publication.now.spans) }
{
    let spans = publication.spans.as_slice();
    match publication.kind {
        PubKind::Over | PubKind::Drop => add_taken(events, place, &publication.source, spans),
        PubKind::Replace => add_replaced(events, place, &publication.source, spans),
        PubKind::Append | PubKind::Reset => Ok(()),
    }
}

fn add_adds<'a>(
    events: &mut Vec<Event<'a>>,
    place: u64,
    source: &'a Name,
    ids: &'a [SegId],
) -> Result<(), OutOfMemory>
    ensures { OnOk result (events.new.items ≡ events.old.items ++ map (adds_root place source.now) ids.now) }
{
    for id in ids {
        events.push(adds_root(place, source, id))?;
    }
    Ok(())
}

fn add_publication<'a>(
    events: &mut Vec<Event<'a>>,
    place: u64,
    publication: &'a Publication,
) -> Result<(), OutOfMemory>
    ensures { OnOk result (events.new.items ≡ events.old.items ++ publication_stages place publication.now) }
{
    add_takes(events, place, publication)?;
    add_adds(
        events,
        place,
        &publication.source,
        publication.adds.as_slice(),
    )
}

/// What the publications put and take away. The error is want of memory.
pub fn publication_events(
    alloc: Global,
    publications: &[Publication],
) -> Result<Vec<Event<'_>>, OutOfMemory>
    ensures { IfOk result (λ v. v.items ≡ all_publication_stages 0 publications.now) }
{
    let mut events = Vec::new(alloc);
    for (place, publication) in publications.iter().enumerate() {
        add_publication(&mut events, place as u64, publication)?;
    }
    Ok(events)
}
