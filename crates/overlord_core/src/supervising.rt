//! `supervise`, `paused` and `checkpoint`.
ghost use Rattle.std.specs.Prelude.{◌≡◌, ◌⊎◌, ◌++◌, ◌∷◌, [], IfErr, IfOk, None, OnErr, OnOk, Some};
ghost use Rattle.book_rows.specs.Outcome.{running, task_of};
ghost use Rattle.book_rows.specs.Sequences.{supervisor_of};
ghost use Rattle.book_rows.specs.SupSteps.{report_reply, report_step, supervised};
ghost use Rattle.sup_core.specs.Supervising.{supervise_fault};
ghost use Rattle.sup_core.specs.declared.answers.SupFault.TheVariants.{OutOfMemory};
ghost use Rattle.book_core.specs.Done.{IsDone};
ghost use Rattle.overlord_core.specs.Supervised.{IsTold, reported_outcome};

use book_core::{Core, OutOfMemory, Outcome, changed, refused, sup_refusal};
use book_rows::{
    Items, Offset, Refusal, Reply, Reported, SeqState, SupervisorRow, TaskStatus, Twin,
};
use seg_names::{Name, TaskId};
use std::alloc::Global;
use sup_core::SupFault;

/// The row of a supervisor.
pub fn supervisor_row(
    alloc: Global,
    source: &Name,
    stream: &Name,
    partitions: u32,
    task_count: u32,
    replicas: u32,
    duration: i64,
    timeout: i64,
) -> Result<SupervisorRow, OutOfMemory>
    ensures { IfOk result (λ row. row ≡ record { source = source.now; stream = stream.now; partitions = partitions; task_count = task_count; replicas = replicas; duration = duration; timeout = timeout }) }
{
    Ok(SupervisorRow {
        source: source.twin(alloc)?,
        stream: stream.twin(alloc)?,
        partitions,
        task_count,
        replicas,
        duration,
        timeout,
    })
}

fn report_reply(begin: bool, state: SeqState, ends: Items<Offset>) -> Reply
    ensures { result ≡ report_reply begin state ends }
{
    if begin {
        Reply::Checkpoint { ends, state }
    } else {
        Reply::Paused { ends, state }
    }
}

fn reported_outcome(begin: bool, reported: Reported) -> Outcome
    ensures { result ≡ reported_outcome begin reported }
{
    let Reported {
        state,
        ends,
        changed,
    } = reported;
    Outcome {
        reply: report_reply(begin, state, ends),
        changes: changed,
    }
}

// What comes of a report of a replica of this source. The error is want of memory.
fn told_outcome(
    alloc: Global,
    begin: bool,
    reported: Result<Reported, SupFault>,
    source: &Name,
) -> Result<Outcome, OutOfMemory>
    ensures { IfOk result (λ o. IsTold begin reported source.now o) }
{
    match reported {
        Ok(reported) => Ok(reported_outcome(begin, reported)),
        Err(fault) => Ok(refused(sup_refusal(alloc, fault, source)?)),
    }
}

fn add_supervisor(core: &mut Core, row: SupervisorRow) -> Result<(), SupFault>
    ensures passes { IfOk result (λ _. supervise_fault row.source core.old.supervisors ≡ None) }
    ensures row { OnOk result (core.new ≡ record core.old { supervisors = core.old.supervisors ++ row ∷ [] }) }
    ensures refused { IfErr result (λ why. (why ≡ OutOfMemory) ⊎ (supervise_fault row.source core.old.supervisors ≡ Some why)) }
    ensures err { OnErr result (core.new ≡ core.old) }
{
    core.supervisors.supervise(row)
}

/// Adds a supervisor, where its source has none.
pub fn supervised(
    core: &mut Core,
    alloc: Global,
    row: SupervisorRow,
) -> Result<Outcome, OutOfMemory>
    ensures { IfOk result (λ o. IsDone o core.new (supervised (supervisor_of row.source core.old.supervisors) core.old row)) }
{
    let source = row.source.twin(alloc)?;
    match add_supervisor(core, row) {
        Ok(()) => Ok(changed(Reply::Supervise { source })),
        Err(fault) => Ok(refused(sup_refusal(alloc, fault, &source)?)),
    }
}

/// Keeps what a replica tells of its sequence: `begin` where it is a checkpoint, which begins the
/// pause of a sequence that reads.
pub fn report(
    core: &mut Core,
    alloc: Global,
    task: &TaskId,
    offsets: &[Offset],
    begin: bool,
) -> Result<Outcome, OutOfMemory>
    ensures { IfOk result (λ o. IsDone o core.new (running (task_of task.now core.old.tasks) core.old (report_step begin core.old offsets.now))) }
{
    let Some(row) = core.tasks.get(task) else {
        return Ok(refused(Refusal::TaskUnknown));
    };
    if row.status != TaskStatus::Running {
        return Ok(refused(Refusal::TaskNotRunning { status: row.status }));
    }
    let reported = core.supervisors.report(row, offsets, core.clock, begin);
    told_outcome(alloc, begin, reported, &row.source)
}
