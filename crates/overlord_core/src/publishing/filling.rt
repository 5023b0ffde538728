//! `insert` and `replace`.
ghost use Rattle.std.specs.Prelude.{◌++◌, ◌≡◌, IfOk, List, OnOk, [], length, true};
ghost use Rattle.seg_names.specs.Ids.{same_id};
ghost use Rattle.book_rows.specs.Form.{are_lists, is_few};
ghost use Rattle.book_rows.specs.Ids.{id_before};
ghost use Rattle.book_rows.specs.Lists.{list_links};
ghost use Rattle.book_rows.specs.Outcome.{changed, no_room, task_of};
ghost use Rattle.book_rows.specs.Over.{Target as At, check_over, kind_of};
ghost use Rattle.book_rows.specs.PublishSteps.{commit_reply, filled, over_checked, over_running, over_step};
ghost use Rattle.book_rows.specs.Publications.{Publish as Put, publication_of, without_since};
ghost use Rattle.book_rows.specs.Shape.{AreDistinct, same_chunk_row, segment_ids};
ghost use Rattle.book_rows.specs.Sound.{Sound};
ghost use Rattle.book_rows.specs.Spans.{span_at_most};
ghost use Rattle.book_rows.specs.declared.rows.TaskRow.{TaskRow as Row};
ghost use Rattle.publish_core.specs.Answers.{IsChecked};
ghost use Rattle.publish_core.specs.Kinds.{filling_of};
ghost use Rattle.stream_offsets.specs.Room.{ranges_ascend};
ghost use Rattle.overlord_core.specs.Commits.{after_fill_plan, carried, committed_by, fill_outcome, fill_tables, pending_rows, with_fill_rows};
ghost use Rattle.book_core.specs.Done.{IsDone};
ghost use Rattle.book_core.specs.Publishing.{publish_of};
ghost use Rattle.upgrade_plan.specs.NewRows.{new_chunks, new_pendings, new_segments};

use crate::publishing::{answered, commit, ranges_fault};
use book_core::{
    Core, OutOfMemory, Outcome, Publish, changed, commit_reply, publication_of, publish_refusal,
    refused, with_spans,
};
use book_rows::{ChunkRow, PendingRow, PubKind, Publication, Refusal, SegmentRow, Table, TaskRow};
use publish_core::{Filling, PublishFault, Target, targets_for};
use publish_rows::{
    add_chunks, add_pendings, add_segments, room_for_insert, room_for_replace, use_up,
};
use seg_names::TaskId;
use std::alloc::Global;
use upgrade_plan::{OverRows, over_rows};

/// An insert or a replacement as it was decided: its publication, its spans with their locks, and the
/// rows that it adds.
#[derive(Drop)]
pub struct FillPlan {
    pub publication: Publication,
    pub targets: Vec<Target>,
    pub rows: OverRows,
}

fn kind_of(filling: Filling) -> PubKind
    ensures { result ≡ kind_of (filling_of filling) }
{
    match filling {
        Filling::Inserting => PubKind::Over,
        Filling::Replacing => PubKind::Replace,
    }
}

fn targets(
    core: &Core,
    alloc: Global,
    filling: Filling,
    row: &TaskRow,
    publish: &Publish<'_>,
) -> Result<Vec<Target>, PublishFault>
    requires spans { list_links span_at_most (publish_of publish.now).spans ≡ true }
    requires ids { list_links id_before (publish_of publish.now).ids ≡ true }
    requires tombstones { list_links id_before (publish_of publish.now).tombstones ≡ true }
    ensures { IsChecked result (check_over (filling_of filling) core.now (publish_of publish.now) row.now) }
{
    targets_for(
        alloc,
        filling,
        &core.segments,
        &core.pendings,
        &core.posses,
        row,
        publish.spans,
        publish.ids,
        publish.tombstones,
    )
}

fn rows_for_fill(
    core: &Core,
    alloc: Global,
    filling: Filling,
    publication: &Publication,
    targets: &[Target],
) -> Result<OverRows, OutOfMemory>
    requires sound { Sound core.now }
    requires few { is_few publication.now.adds ≡ true }
    ensures chunks { IfOk result (λ rows. rows.chunks.items ≡ new_chunks (filling_of filling) (pending_rows core.now) publication.now.source publication.now.adds (length core.now.publications) targets.now) }
    ensures segments { IfOk result (λ rows. rows.segments.items ≡ new_segments (filling_of filling) (pending_rows core.now) publication.now.source publication.now.adds publication.now.empties (length core.now.publications) targets.now) }
    ensures pendings { IfOk result (λ rows. rows.pendings.items ≡ new_pendings (filling_of filling) (pending_rows core.now) publication.now.source publication.now.adds (length core.now.publications) targets.now) }
{
    over_rows(
        alloc,
        filling,
        &core.pendings,
        &publication.source,
        publication.adds.as_slice(),
        publication.empties.as_slice(),
        targets,
        core.streams.count(),
    )
}

fn room_for_fill(
    core: &Core,
    filling: Filling,
    rows: &OverRows,
    publication: &Publication,
) -> Option<Table>
    requires sound { Sound core.now }
    requires ascend { ranges_ascend publication.now.ranges ≡ true }
    ensures { (xs : List At) → result ≡ no_room (fill_tables (filling_of filling)) (committed_by publication.now (with_fill_rows (filling_of filling) xs rows.now core.now)) }
{
    match filling {
        Filling::Inserting => room_for_insert(
            &core.segments,
            &core.streams,
            &rows.chunks,
            &rows.segments,
            publication,
        ),
        Filling::Replacing => room_for_replace(
            &core.segments,
            &core.pendings,
            &core.streams,
            &rows.chunks,
            &rows.segments,
            &rows.pendings,
            publication,
        ),
    }
}

// The rows of the publication, where there is room for them.
fn fill_with_room(
    core: &Core,
    alloc: Global,
    filling: Filling,
    publication: Publication,
    targets: Vec<Target>,
) -> Result<Result<FillPlan, Refusal>, OutOfMemory>
    requires sound { Sound core.now }
    requires few { is_few publication.adds ≡ true }
    requires ascend { ranges_ascend publication.ranges ≡ true }
    ensures { (t : Row) (p : Put) → publication ≡ publication_of (kind_of (filling_of filling)) t (without_since p.spans) p → IfOk result (λ d. fill_outcome (filling_of filling) d core.now ≡ filled (filling_of filling) core.now p t targets.items) }
{
    let dated = with_spans(alloc, filling, publication, targets.as_slice())?;
    let rows = rows_for_fill(core, alloc, filling, &dated, targets.as_slice())?;
    match room_for_fill(core, filling, &rows, &dated) {
        Some(table) => {
            drop(rows);
            drop(targets);
            drop(dated);
            Ok(Err(Refusal::TableFull { table }))
        }
        None => Ok(Ok(FillPlan {
            publication: dated,
            targets,
            rows,
        })),
    }
}

// The spans have their locks, and now the ranges are asked.
fn fill_checked(
    core: &Core,
    alloc: Global,
    filling: Filling,
    row: &TaskRow,
    publication: Publication,
    targets: Vec<Target>,
) -> Result<Result<FillPlan, Refusal>, OutOfMemory>
    requires sound { Sound core.now }
    requires few { is_few publication.adds ≡ true }
    requires ascend { ranges_ascend publication.ranges ≡ true }
    ensures { (p : Put) → publication ≡ publication_of (kind_of (filling_of filling)) row.now (without_since p.spans) p → IfOk result (λ d. fill_outcome (filling_of filling) d core.now ≡ over_checked (filling_of filling) core.now p row.now targets.items) }
{
    let fault = ranges_fault(core, alloc, row, &publication.ranges)?;
    match fault {
        Some(why) => {
            drop(targets);
            drop(publication);
            Ok(Err(why))
        }
        None => fill_with_room(core, alloc, filling, publication, targets),
    }
}

// Decides an insert or a replacement of a running task. Nothing is changed.
fn fill_plan(
    core: &Core,
    alloc: Global,
    filling: Filling,
    row: &TaskRow,
    publish: &Publish<'_>,
    publication: Publication,
) -> Result<Result<FillPlan, Refusal>, OutOfMemory>
    requires sound { Sound core.now }
    requires form { are_lists (publish_of publish.now).spans (publish_of publish.now).ids (publish_of publish.now).tombstones (publish_of publish.now).ranges ≡ true }
    requires own { publication ≡ publication_of (kind_of (filling_of filling)) row.now (without_since (publish_of publish.now).spans) (publish_of publish.now) }
    ensures { IfOk result (λ d. fill_outcome (filling_of filling) d core.now ≡ over_running (filling_of filling) core.now (publish_of publish.now) row.now) }
{
    match targets(core, alloc, filling, row, publish) {
        Ok(targets) => fill_checked(core, alloc, filling, row, publication, targets),
        Err(fault) => {
            drop(publication);
            Ok(Err(publish_refusal(fault)?))
        }
    }
}

// A replacement adds the copies of pendings, and its upgrade rows are used up.
fn carry(
    core: &mut Core,
    filling: Filling,
    copies: Vec<PendingRow>,
    targets: &[Target],
) -> Result<(), OutOfMemory>
    ensures { OnOk result (core.new ≡ carried (filling_of filling) copies.items targets.now core.old) }
{
    match filling {
        Filling::Inserting => Ok(()),
        Filling::Replacing => {
            add_pendings(&mut core.pendings, copies)?;
            use_up(&mut core.pendings, targets);
            Ok(())
        }
    }
}

// Adds the chunks and the segments.
fn put_chunks(
    core: &mut Core,
    chunks: Vec<ChunkRow>,
    segments: Vec<SegmentRow>,
) -> Result<(), OutOfMemory>
    requires chunks_apart { AreDistinct same_chunk_row (core.old.chunks ++ chunks.items) }
    requires ids_apart { AreDistinct same_id (segment_ids (core.old.segments ++ segments.items)) }
    ensures { OnOk result (core.new ≡ record core.old { chunks = core.old.chunks ++ chunks.items; segments = core.old.segments ++ segments.items }) }
{
    add_chunks(&mut core.segments, chunks)?;
    add_segments(&mut core.segments, segments)
}

// Adds the rows of an insert or a replacement.
fn put_fill_rows(
    core: &mut Core,
    filling: Filling,
    rows: OverRows,
    targets: &[Target],
) -> Result<(), OutOfMemory>
    requires chunks_apart { AreDistinct same_chunk_row (core.old.chunks ++ rows.chunks.items) }
    requires ids_apart { AreDistinct same_id (segment_ids (core.old.segments ++ rows.segments.items)) }
    ensures { OnOk result (core.new ≡ with_fill_rows (filling_of filling) targets.now rows core.old) }
{
    let OverRows {
        chunks,
        segments,
        pendings,
    } = rows;
    put_chunks(core, chunks, segments)?;
    carry(core, filling, pendings, targets)
}

fn put_fill(
    core: &mut Core,
    alloc: Global,
    filling: Filling,
    plan: FillPlan,
) -> Result<Outcome, OutOfMemory>
    requires { Sound (after_fill_plan (filling_of filling) plan core.old) }
    ensures { IfOk result (λ o. IsDone o core.new (changed (after_fill_plan (filling_of filling) plan core.old) (commit_reply (kind_of (filling_of filling)) (length core.old.publications)))) }
{
    let FillPlan {
        publication,
        targets,
        rows,
    } = plan;
    let number = core.streams.count();
    let added = put_fill_rows(core, filling, rows, targets.as_slice());
    drop(targets);
    if let Err(error) = added {
        drop(publication);
        return Err(error);
    }
    commit(core, alloc, publication)?;
    Ok(changed(commit_reply(kind_of(filling), number)))
}

// Does what was decided.
fn done_fill(
    core: &mut Core,
    alloc: Global,
    filling: Filling,
    decided: Result<FillPlan, Refusal>,
) -> Result<Outcome, OutOfMemory>
    requires { Sound (fill_outcome (filling_of filling) decided core.old).book }
    ensures { IfOk result (λ o. IsDone o core.new (fill_outcome (filling_of filling) decided core.old)) }
{
    match decided {
        Ok(plan) => put_fill(core, alloc, filling, plan),
        Err(why) => Ok(refused(why)),
    }
}

/// Publishes ids and tombstones that fill spans.
pub fn fill(
    core: &mut Core,
    alloc: Global,
    filling: Filling,
    task: &TaskId,
    publish: &Publish<'_>,
) -> Result<Outcome, OutOfMemory>
    requires sound { Sound core.old }
    requires after { Sound (over_step (filling_of filling) (task_of task.now core.old.tasks) core.old (publish_of publish.now)).book }
    requires form { are_lists (publish_of publish.now).spans (publish_of publish.now).ids (publish_of publish.now).tombstones (publish_of publish.now).ranges ≡ true }
    ensures { IfOk result (λ o. IsDone o core.new (over_step (filling_of filling) (task_of task.now core.old.tasks) core.old (publish_of publish.now))) }
{
    let Some(row) = core.task(task) else {
        return Ok(refused(Refusal::TaskUnknown));
    };
    let publication = publication_of(alloc, kind_of(filling), row, publish)?;
    match answered(core, row, &publication) {
        Some(outcome) => {
            drop(publication);
            Ok(outcome)
        }
        None => {
            let decided = fill_plan(core, alloc, filling, row, publish, publication)?;
            done_fill(core, alloc, filling, decided)
        }
    }
}
