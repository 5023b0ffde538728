//! Publications, and what tasks publish.
ghost use Rattle.std.specs.Prelude.{◌≡◌, ◌∷◌, IfOk, [], map};
ghost use Rattle.book_rows.specs.Names.{no_group};
ghost use Rattle.book_rows.specs.Offsets.{point_of};
ghost use Rattle.book_rows.specs.Publications.{drop_publication, publication_of, reset_publication, without_since};
ghost use Rattle.book_rows.specs.PublishSteps.{commit_reply};
ghost use Rattle.publish_core.specs.Answers.{IsRefusal};
ghost use Rattle.publish_core.specs.Kinds.{filling_of};
ghost use Rattle.book_core.specs.Publishing.{publish_of, since_in, spans_in};

use crate::OutOfMemory;
use crate::twins::{twin_both, twin_lists};
use book_rows::{
    Items, Offset, PubKind, Publication, Range, Ranges, Refusal, Reply, SpanSince, TaskRow, Twin,
};
use iv_span::Span;
use publish_core::{Filling, PublishFault, Target};
use seg_names::{Name, NameFault, SegId, TaskId};
use std::alloc::{AllocError, Global};

/// What a task publishes: ids, with `insert` and `replace` those and the tombstones that fill spans.
#[derive(Drop)]
pub struct Publish<'a> {
    pub spans: &'a [Span],
    pub ids: &'a [SegId],
    pub tombstones: &'a [SegId],
    pub ranges: &'a Option<Ranges>,
}

/// The answer to a publication of this kind: its commit number.
pub fn commit_reply(kind: PubKind, commit: u64) -> Reply
    ensures { result ≡ commit_reply kind commit }
{
    match kind {
        PubKind::Append => Reply::Append { commit },
        PubKind::Over => Reply::Insert { commit },
        PubKind::Replace => Reply::Replace { commit },
        PubKind::Drop => Reply::Drop { commit },
        PubKind::Reset => Reply::Reset { commit },
    }
}

/// Why a publish is refused. The error is want of memory.
pub fn publish_refusal(fault: PublishFault) -> Result<Refusal, OutOfMemory>
    ensures { IfOk result (λ why. IsRefusal fault why) }
{
    match fault {
        PublishFault::NotAllocated(id) => Ok(Refusal::NotAllocated { id }),
        PublishFault::BadSpan(span) => Ok(Refusal::BadSpan { span }),
        PublishFault::LockRevoked(by) => Ok(Refusal::LockRevoked { by }),
        PublishFault::LockMissing(span) => Ok(Refusal::LockMissing { span }),
        PublishFault::WrongVersion(id) => Ok(Refusal::WrongVersion { id }),
        PublishFault::VersionUsed(span) => Ok(Refusal::VersionUsed { span }),
        PublishFault::PendingOverlap(id) => Ok(Refusal::PendingOverlap { id }),
        PublishFault::Granularity(id) => Ok(Refusal::Granularity { id }),
        PublishFault::DropLocked(by) => Ok(Refusal::DropLocked { by }),
        PublishFault::DropPartial(id) => Ok(Refusal::DropPartial { id }),
        PublishFault::OutOfMemory => Err(AllocError),
    }
}

// The group of a publication that no task made.
fn no_group(alloc: Global) -> Result<TaskId, OutOfMemory>
    ensures { IfOk result (λ group. group ≡ no_group) }
{
    match TaskId::new(alloc, b"-") {
        Ok(group) => Ok(group),
        Err(NameFault::OutOfMemory) => Err(AllocError),
        Err(NameFault::BadName) => unreachable!(),
    }
}

// ---- of a task

fn without_since(alloc: Global, spans: &[Span]) -> Result<Vec<SpanSince>, OutOfMemory>
    ensures { IfOk result (λ made. made.items ≡ without_since spans.now) }
{
    spans
        .iter()
        .map(|span| SpanSince {
            span: *span,
            since: 0,
        })
        .collect(alloc)
}

// The spans and the ranges of what a task publishes.
fn spans_and_ranges(
    alloc: Global,
    publish: &Publish<'_>,
) -> Result<(Items<SpanSince>, Option<Ranges>), OutOfMemory>
    ensures spans { IfOk result (λ both. both.0 ≡ without_since (publish_of publish.now).spans) }
    ensures ranges { IfOk result (λ both. both.1 ≡ (publish_of publish.now).ranges) }
{
    let spans = Items::from_vec(without_since(alloc, publish.spans)?);
    match publish.ranges.twin(alloc) {
        Ok(ranges) => Ok((spans, ranges)),
        Err(error) => {
            drop(spans);
            Err(error)
        }
    }
}

// What a publication has of what a task publishes.
#[derive(Drop)]
struct Content {
    spans: Items<SpanSince>,
    adds: Items<SegId>,
    empties: Items<SegId>,
    ranges: Option<Ranges>,
}

fn content_of(alloc: Global, publish: &Publish<'_>) -> Result<Content, OutOfMemory>
    ensures spans { IfOk result (λ made. made.spans ≡ without_since (publish_of publish.now).spans) }
    ensures adds { IfOk result (λ made. made.adds ≡ (publish_of publish.now).ids) }
    ensures empties { IfOk result (λ made. made.empties ≡ (publish_of publish.now).tombstones) }
    ensures ranges { IfOk result (λ made. made.ranges ≡ (publish_of publish.now).ranges) }
{
    let (adds, empties) = twin_lists(alloc, publish.ids, publish.tombstones)?;
    match spans_and_ranges(alloc, publish) {
        Ok((spans, ranges)) => Ok(Content {
            spans,
            adds,
            empties,
            ranges,
        }),
        Err(error) => {
            drop(adds);
            drop(empties);
            Err(error)
        }
    }
}

fn with_names(kind: PubKind, group: TaskId, source: Name, content: Content) -> Publication
    ensures { result ≡ record { kind = kind; group = group; source = source; spans = content.spans; adds = content.adds; empties = content.empties; ranges = content.ranges } }
{
    let Content {
        spans,
        adds,
        empties,
        ranges,
    } = content;
    Publication {
        kind,
        group,
        source,
        spans,
        adds,
        empties,
        ranges,
    }
}

/// The publication of what a task publishes, whose spans don't tell yet since when they are locked.
pub fn publication_of(
    alloc: Global,
    kind: PubKind,
    row: &TaskRow,
    publish: &Publish<'_>,
) -> Result<Publication, OutOfMemory>
    ensures { IfOk result (λ made. made ≡ publication_of kind row.now (without_since (publish_of publish.now).spans) (publish_of publish.now)) }
{
    let content = content_of(alloc, publish)?;
    match twin_both(alloc, &row.group, &row.source) {
        Ok((group, source)) => Ok(with_names(kind, group, source, content)),
        Err(error) => {
            drop(content);
            Err(error)
        }
    }
}

// Only a replacement tells since when its spans are locked.
fn since_in(filling: Filling, target: &Target) -> SpanSince
    ensures { result ≡ since_in (filling_of filling) target.now }
{
    let since = match filling {
        Filling::Inserting => 0,
        Filling::Replacing => target.since,
    };
    SpanSince {
        span: target.span,
        since,
    }
}

fn spans_in(
    alloc: Global,
    filling: Filling,
    targets: &[Target],
) -> Result<Vec<SpanSince>, OutOfMemory>
    ensures { IfOk result (λ made. made.items ≡ spans_in (filling_of filling) targets.now) }
{
    targets
        .iter()
        .map(|target| since_in(filling, target))
        .collect(alloc)
}

/// The publication with the spans that it fills.
pub fn with_spans(
    alloc: Global,
    filling: Filling,
    publication: Publication,
    targets: &[Target],
) -> Result<Publication, OutOfMemory>
    ensures { IfOk result (λ made. made ≡ record publication { spans = spans_in (filling_of filling) targets.now }) }
{
    match spans_in(alloc, filling, targets) {
        Ok(spans) => Ok(Publication {
            spans: Items::from_vec(spans),
            ..publication
        }),
        Err(error) => {
            drop(publication);
            Err(error)
        }
    }
}

// ---- of none

fn one_span(alloc: Global, span: Span) -> Result<Items<SpanSince>, OutOfMemory>
    ensures { IfOk result (λ spans. spans ≡ record { span = span; since = 0 } ∷ []) }
{
    let mut spans = Items::new(alloc);
    spans.push(SpanSince { span, since: 0 })?;
    Ok(spans)
}

// The group of a publication that no task made, and its source.
fn names_of(alloc: Global, source: &Name) -> Result<(TaskId, Name), OutOfMemory>
    ensures group { IfOk result (λ names. names.0 ≡ no_group) }
    ensures source { IfOk result (λ names. names.1 ≡ source.now) }
{
    let group = no_group(alloc)?;
    match source.twin(alloc) {
        Ok(source) => Ok((group, source)),
        Err(error) => {
            drop(group);
            Err(error)
        }
    }
}

/// The publication of a drop.
pub fn drop_publication(
    alloc: Global,
    source: &Name,
    span: Span,
) -> Result<Publication, OutOfMemory>
    ensures { IfOk result (λ made. made ≡ drop_publication source.now span) }
{
    let spans = one_span(alloc, span)?;
    match names_of(alloc, source) {
        Ok((group, source)) => Ok(Publication {
            kind: PubKind::Drop,
            group,
            source,
            spans,
            adds: Items::new(alloc),
            empties: Items::new(alloc),
            ranges: None,
        }),
        Err(error) => {
            drop(spans);
            Err(error)
        }
    }
}

fn point_of(offset: &Offset) -> Range
    ensures { result ≡ point_of offset.now }
{
    Range {
        partition: offset.partition,
        start: offset.offset,
        end: offset.offset,
    }
}

fn points(alloc: Global, offsets: &[Offset]) -> Result<Vec<Range>, OutOfMemory>
    ensures { IfOk result (λ made. made.items ≡ map point_of offsets.now) }
{
    offsets.iter().map(|offset| point_of(offset)).collect(alloc)
}

fn point_ranges(alloc: Global, stream: &Name, offsets: &[Offset]) -> Result<Ranges, OutOfMemory>
    ensures { IfOk result (λ ranges. ranges ≡ record { stream = stream.now; parts = map point_of offsets.now }) }
{
    let parts = points(alloc, offsets)?;
    match stream.twin(alloc) {
        Ok(stream) => Ok(Ranges {
            stream,
            parts: Items::from_vec(parts),
        }),
        Err(error) => {
            drop(parts);
            Err(error)
        }
    }
}

/// The publication of a reset.
pub fn reset_publication(
    alloc: Global,
    source: &Name,
    stream: &Name,
    offsets: &[Offset],
) -> Result<Publication, OutOfMemory>
    ensures { IfOk result (λ made. made ≡ reset_publication source.now stream.now offsets.now) }
{
    let ranges = point_ranges(alloc, stream, offsets)?;
    match names_of(alloc, source) {
        Ok((group, source)) => Ok(Publication {
            kind: PubKind::Reset,
            group,
            source,
            spans: Items::new(alloc),
            adds: Items::new(alloc),
            empties: Items::new(alloc),
            ranges: Some(ranges),
        }),
        Err(error) => {
            drop(ranges);
            Err(error)
        }
    }
}
