//! The checks of `insert` and `replace`.
ghost use Rattle.std.specs.Prelude.{◌≡◌, IfOk, Option, map, true};
ghost use Rattle.book_rows.specs.Ids.{id_before};
ghost use Rattle.book_rows.specs.Lists.{list_links};
ghost use Rattle.book_rows.specs.Over.{Inserting, Replacing, check_over, way_fault};
ghost use Rattle.book_rows.specs.Publications.{Publish, in_spans};
ghost use Rattle.book_rows.specs.Spans.{span_at_most};
ghost use Rattle.book_rows.specs.declared.rows.Book.{Book};
ghost use Rattle.book_rows.specs.declared.rows.Ranges.{Ranges};
ghost use Rattle.publish_core.specs.Answers.{IsChecked, IsPassed, locks_checked};
ghost use Rattle.publish_core.specs.Kinds.{filling_of};
ghost use Rattle.publish_core.specs.Tables.{with_tables};

use crate::OutOfMemory;
use crate::faults::PublishFault;
use crate::filled::bad_span;
use crate::kinds::{Filling, lock_for};
use crate::locks::targets;
use crate::targets::Target;
use crate::versions::check_versions;
use crate::ways::{check_carried, check_pendings};
use book_rows::TaskRow;
use iv_span::Span;
use lock_posse::Posses;
use seg_names::SegId;
use std::alloc::Global;
use tab_pending::Pendings;
use tab_segments::Segments;

// Whether nothing is in the way of an insert, or of a replacement.
fn check_way(
    alloc: Global,
    filling: Filling,
    pendings: &Pendings,
    task: &TaskRow,
    targets: &[Target],
    spans: &[Span],
) -> Result<(), PublishFault>
    ensures { (b : Book) (p : Publish) → IsPassed result (way_fault (filling_of filling)
        (record b { pendings = pendings.now.pendings; upgrades = pendings.now.upgrades })
        (record p { spans = spans.now }) task.now targets.now) }
{
    match filling {
        Filling::Inserting => check_pendings(alloc, pendings, &task.source, spans),
        Filling::Replacing => check_carried(alloc, pendings, &task.source, targets, spans),
    }
}

/// The spans with their locks, where the task may fill them so with the ids and tombstones; else the
/// first case of the rules that fails.
///
/// `BadSpan` comes before the locks, `LockRevoked` or `LockMissing` of the first span that has none;
/// then `WrongVersion`, `VersionUsed`, and `PendingOverlap` of an insert or `Granularity` of a
/// replacement.
pub fn targets_for(
    alloc: Global,
    filling: Filling,
    segments: &Segments,
    pendings: &Pendings,
    posses: &Posses,
    task: &TaskRow,
    spans: &[Span],
    ids: &[SegId],
    tombstones: &[SegId],
) -> Result<Vec<Target>, PublishFault>
    requires spans { list_links span_at_most spans.now ≡ true }
    requires ids { list_links id_before ids.now ≡ true }
    requires tombstones { list_links id_before tombstones.now ≡ true }
    ensures { (b : Book) (ranges : Option Ranges) → IsChecked result (check_over (filling_of filling)
        (with_tables segments.now pendings.now posses.now b)
        (in_spans spans.now ids.now tombstones.now ranges) task.now) }
{
    if let Some(span) = bad_span(alloc, &task.source, spans, ids, tombstones)? {
        return Err(PublishFault::BadSpan(span));
    }
    let targets = targets(alloc, posses, task, lock_for(filling), spans)?;
    let found = targets.as_slice();
    check_versions(alloc, segments, &task.source, found, ids, tombstones)?;
    check_way(alloc, filling, pendings, task, found, spans)?;
    Ok(targets)
}

fn locks_of(alloc: Global, targets: &[Target]) -> Result<Vec<u64>, OutOfMemory>
    ensures { IfOk result (λ v. v.items ≡ map (λ x. x.lock) targets.now) }
{
    targets.iter().map(|target| target.lock).collect(alloc)
}

// The number of the lock of each span, where the task may fill them so.
fn locks_for(
    alloc: Global,
    filling: Filling,
    segments: &Segments,
    pendings: &Pendings,
    posses: &Posses,
    task: &TaskRow,
    spans: &[Span],
    ids: &[SegId],
    tombstones: &[SegId],
) -> Result<Vec<u64>, PublishFault>
    requires spans { list_links span_at_most spans.now ≡ true }
    requires ids { list_links id_before ids.now ≡ true }
    requires tombstones { list_links id_before tombstones.now ≡ true }
    ensures { (b : Book) (ranges : Option Ranges) → IsChecked result (locks_checked (check_over (filling_of filling)
        (with_tables segments.now pendings.now posses.now b)
        (in_spans spans.now ids.now tombstones.now ranges) task.now)) }
{
    let targets = targets_for(
        alloc, filling, segments, pendings, posses, task, spans, ids, tombstones,
    )?;
    Ok(locks_of(alloc, targets.as_slice())?)
}

/// The number of the lock of each span, where the task may insert so; else the first case that fails.
pub fn check_over(
    alloc: Global,
    segments: &Segments,
    pendings: &Pendings,
    posses: &Posses,
    task: &TaskRow,
    spans: &[Span],
    ids: &[SegId],
    tombstones: &[SegId],
) -> Result<Vec<u64>, PublishFault>
    requires spans { list_links span_at_most spans.now ≡ true }
    requires ids { list_links id_before ids.now ≡ true }
    requires tombstones { list_links id_before tombstones.now ≡ true }
    ensures { (b : Book) (ranges : Option Ranges) → IsChecked result (locks_checked (check_over Inserting
        (with_tables segments.now pendings.now posses.now b)
        (in_spans spans.now ids.now tombstones.now ranges) task.now)) }
{
    let filling = Filling::Inserting;
    locks_for(
        alloc, filling, segments, pendings, posses, task, spans, ids, tombstones,
    )
}

/// The number of the lock of each span, where the task may replace so; else the first case that fails.
pub fn check_replace(
    alloc: Global,
    segments: &Segments,
    pendings: &Pendings,
    posses: &Posses,
    task: &TaskRow,
    spans: &[Span],
    ids: &[SegId],
    tombstones: &[SegId],
) -> Result<Vec<u64>, PublishFault>
    requires spans { list_links span_at_most spans.now ≡ true }
    requires ids { list_links id_before ids.now ≡ true }
    requires tombstones { list_links id_before tombstones.now ≡ true }
    ensures { (b : Book) (ranges : Option Ranges) → IsChecked result (locks_checked (check_over Replacing
        (with_tables segments.now pendings.now posses.now b)
        (in_spans spans.now ids.now tombstones.now ranges) task.now)) }
{
    let filling = Filling::Replacing;
    locks_for(
        alloc, filling, segments, pendings, posses, task, spans, ids, tombstones,
    )
}
