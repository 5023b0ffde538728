//! `append`.
ghost use Rattle.std.specs.Prelude.{◌++◌, ◌≡◌, IfOk, OnOk, [], length, true};
ghost use Rattle.seg_names.specs.Ids.{same_id};
ghost use Rattle.book_rows.specs.Append.{after_append, append_fault, rows_of_root, upgrade_of};
ghost use Rattle.book_rows.specs.Lists.{gathered, or_else};
ghost use Rattle.book_rows.specs.Outcome.{changed, fitted, no_room, task_of};
ghost use Rattle.book_rows.specs.PublishSteps.{append_running, appended, commit_reply};
ghost use Rattle.book_rows.specs.Publications.{Publish as Put, appending, publication_of, ranges_fault};
ghost use Rattle.book_rows.specs.Shape.{AreDistinct, segment_ids};
ghost use Rattle.book_rows.specs.Sound.{Sound};
ghost use Rattle.book_rows.specs.declared.kinds.PubKind.TheVariants as PubKinds;
ghost use Rattle.book_rows.specs.declared.rows.TaskRow.{TaskRow as Row};
ghost use Rattle.publish_rows.specs.Room.{append_tables};
ghost use Rattle.stream_offsets.specs.Room.{ranges_ascend};
ghost use Rattle.overlord_core.specs.Commits.{after_append_plan, append_outcome, committed_by, with_append_rows};
ghost use Rattle.book_core.specs.Done.{IsDone};
ghost use Rattle.book_core.specs.Publishing.{publish_of};

use crate::publishing::{answered, commit, ranges_fault};
use book_core::{
    Core, OutOfMemory, Outcome, Publish, changed, publication_of, publish_refusal, refused,
};
use book_rows::{PubKind, Publication, Ranges, Refusal, Reply, Table, TaskRow};
use publish_core::check_append;
use publish_rows::{add_segments, add_upgrades, take_roots};
use seg_names::{SegId, TaskId};
use std::alloc::Global;
use upgrade_plan::{AppendRows, append_rows};

/// An append as it was decided: its publication, and the rows that it adds.
#[derive(Drop)]
pub struct AppendPlan {
    pub publication: Publication,
    pub rows: AppendRows,
}

fn append_fault(
    core: &Core,
    alloc: Global,
    row: &TaskRow,
    publish: &Publish<'_>,
) -> Result<Option<Refusal>, OutOfMemory>
    ensures { IfOk result (λ o. o ≡ or_else (append_fault core.now.posses core.now.pendings row.now.task (publish_of publish.now).ids) (ranges_fault core.now row.now (publish_of publish.now).ranges)) }
{
    match check_append(alloc, &core.pendings, &core.posses, row, publish.ids) {
        Ok(()) => ranges_fault(core, alloc, row, publish.ranges),
        Err(fault) => Ok(Some(publish_refusal(fault)?)),
    }
}

fn rows_for_append(core: &Core, alloc: Global, ids: &[SegId]) -> Result<AppendRows, OutOfMemory>
    ensures segments { IfOk result (λ rows. rows.segments.items ≡ gathered (λ a. rows_of_root (length core.now.publications) a core.now.pendings) ids.now) }
    ensures upgrades { IfOk result (λ rows. rows.upgrades.items ≡ gathered (upgrade_of core.now.posses core.now.chunks) ids.now) }
{
    append_rows(
        alloc,
        &core.posses,
        &core.segments,
        &core.pendings,
        ids,
        core.streams.count(),
    )
}

fn room_for_append(core: &Core, rows: &AppendRows, publication: &Publication) -> Option<Table>
    requires sound { Sound core.now }
    requires ascend { ranges_ascend publication.now.ranges ≡ true }
    ensures { result ≡ no_room append_tables (committed_by publication.now (with_append_rows rows.now publication.now.adds core.now)) }
{
    publish_rows::room_for_append(
        &core.segments,
        &core.pendings,
        &core.streams,
        &rows.segments,
        &rows.upgrades,
        publication,
    )
}

// The rows of the publication, where there is room for them.
fn append_with_room(
    core: &Core,
    alloc: Global,
    publication: Publication,
) -> Result<Result<AppendPlan, Refusal>, OutOfMemory>
    requires sound { Sound core.now }
    requires ascend { ranges_ascend publication.ranges ≡ true }
    ensures { (t : Row) (p : Put) → publication ≡ publication_of PubKinds.Append t [] p → IfOk result (λ d. append_outcome d core.now ≡ fitted append_tables core.now (after_append t p core.now) (commit_reply PubKinds.Append (length core.now.publications))) }
{
    let rows = rows_for_append(core, alloc, publication.adds.as_slice())?;
    match room_for_append(core, &rows, &publication) {
        Some(table) => {
            drop(rows);
            drop(publication);
            Ok(Err(Refusal::TableFull { table }))
        }
        None => Ok(Ok(AppendPlan { publication, rows })),
    }
}

// Decides an append of a running task. Nothing is changed.
fn append_plan(
    core: &Core,
    alloc: Global,
    row: &TaskRow,
    publish: &Publish<'_>,
    publication: Publication,
) -> Result<Result<AppendPlan, Refusal>, OutOfMemory>
    requires sound { Sound core.now }
    requires ascend { ranges_ascend publication.ranges ≡ true }
    requires own { publication ≡ publication_of PubKinds.Append row.now [] (publish_of publish.now) }
    ensures { IfOk result (λ d. append_outcome d core.now ≡ append_running core.now (publish_of publish.now) row.now) }
{
    let fault = append_fault(core, alloc, row, publish)?;
    match fault {
        Some(why) => {
            drop(publication);
            Ok(Err(why))
        }
        None => append_with_room(core, alloc, publication),
    }
}

// Adds the rows of an append, and takes its roots out of the pendings.
fn put_append_rows(core: &mut Core, ids: &[SegId], rows: AppendRows) -> Result<(), OutOfMemory>
    requires { AreDistinct same_id (segment_ids (core.old.segments ++ rows.segments.items)) }
    ensures { OnOk result (core.new ≡ with_append_rows rows ids.now core.old) }
{
    let AppendRows { segments, upgrades } = rows;
    add_segments(&mut core.segments, segments)?;
    take_roots(&mut core.pendings, ids);
    add_upgrades(&mut core.pendings, upgrades)
}

fn put_append(core: &mut Core, alloc: Global, plan: AppendPlan) -> Result<Outcome, OutOfMemory>
    requires { Sound (after_append_plan plan core.old) }
    ensures { IfOk result (λ o. IsDone o core.new (changed (after_append_plan plan core.old) (commit_reply PubKinds.Append (length core.old.publications)))) }
{
    let AppendPlan { publication, rows } = plan;
    let number = core.streams.count();
    if let Err(error) = put_append_rows(core, publication.adds.as_slice(), rows) {
        drop(publication);
        return Err(error);
    }
    commit(core, alloc, publication)?;
    Ok(changed(Reply::Append { commit: number }))
}

// Does what was decided.
fn done_append(
    core: &mut Core,
    alloc: Global,
    decided: Result<AppendPlan, Refusal>,
) -> Result<Outcome, OutOfMemory>
    requires { Sound (append_outcome decided core.old).book }
    ensures { IfOk result (λ o. IsDone o core.new (append_outcome decided core.old)) }
{
    match decided {
        Ok(plan) => put_append(core, alloc, plan),
        Err(why) => Ok(refused(why)),
    }
}

/// Publishes allocated ids beside what is there.
pub fn append(
    core: &mut Core,
    alloc: Global,
    task: &TaskId,
    ids: &[SegId],
    ranges: &Option<Ranges>,
) -> Result<Outcome, OutOfMemory>
    requires sound { Sound core.old }
    requires after { Sound (appended (task_of task.now core.old.tasks) core.old (appending ids.now ranges.now)).book }
    requires ascend { ranges_ascend ranges.now ≡ true }
    ensures { IfOk result (λ o. IsDone o core.new (appended (task_of task.now core.old.tasks) core.old (appending ids.now ranges.now))) }
{
    let publish = Publish {
        spans: &[],
        ids,
        tombstones: &[],
        ranges,
    };
    let Some(row) = core.task(task) else {
        return Ok(refused(Refusal::TaskUnknown));
    };
    let publication = publication_of(alloc, PubKind::Append, row, &publish)?;
    match answered(core, row, &publication) {
        Some(outcome) => {
            drop(publication);
            Ok(outcome)
        }
        None => {
            let decided = append_plan(core, alloc, row, &publish, publication)?;
            done_append(core, alloc, decided)
        }
    }
}
