//! `tick`.
ghost use Rattle.std.specs.Prelude.{◌++◌, ◌-◌, ◌≡◌, ◌⊎◌, IfErr, IfOk, None, OnErr, OnOk, Some, length, true};
ghost use Rattle.book_rows.specs.Grant.{moment};
ghost use Rattle.book_rows.specs.Outcome.{row_limit};
ghost use Rattle.book_rows.specs.Shape.{AreDistinct, same_task};
ghost use Rattle.book_rows.specs.Sound.{Sound};
ghost use Rattle.book_rows.specs.SupSteps.{tick_step, with_tasks};
ghost use Rattle.book_rows.specs.TaskSteps.{all_failed};
ghost use Rattle.book_rows.specs.Ticks.{ticked};
ghost use Rattle.book_rows.specs.declared.replies.Reply.TheVariants as Replies;
ghost use Rattle.sup_core.specs.Ticking.{tick_fault};
ghost use Rattle.sup_core.specs.declared.answers.SupFault.TheVariants.{OutOfMemory};
ghost use Rattle.book_core.specs.Done.{IsDone};
ghost use Rattle.overlord_core.specs.Supervised.{IsTickRefusal, may_refuse_tick};

use book_core::{Core, OutOfMemory, Outcome, changed, refused};
use book_rows::{Items, ROW_LIMIT, Refusal, Reply, TaskRow, Ticked};
use seg_names::TaskId;
use std::alloc::{AllocError, Global};
use sup_core::SupFault;
use tab_tasks::Tasks;

// Why a tick is refused: only for a table that is too full. The error is want of memory.
fn tick_refusal(fault: SupFault) -> Result<Refusal, OutOfMemory>
    requires { may_refuse_tick fault ≡ true }
    ensures { IfOk result (λ why. IsTickRefusal fault why) }
{
    match fault {
        SupFault::Full(table) => Ok(Refusal::TableFull { table }),
        SupFault::OutOfMemory => Err(AllocError),
        SupFault::Exists
        | SupFault::State(_)
        | SupFault::NoSequence
        | SupFault::BadRange(_)
        | SupFault::NotAssigned => unreachable!(),
    }
}

// Adds rows, of whose tasks none is there.
fn add_rows(tasks: &mut Tasks, rows: Vec<TaskRow>) -> Result<(), OutOfMemory>
    requires { AreDistinct same_task (tasks.old ++ rows.items) }
    ensures { OnOk result (tasks.new ≡ tasks.old ++ rows.items) }
{
    for row in rows {
        tasks.add(row)?;
    }
    Ok(())
}

fn moment(core: &Core, now: i64) -> i64
    ensures { result ≡ moment core.now now }
{
    now.max(core.clock)
}

// How many tasks there is room for.
fn tasks_left(core: &Core) -> u32
    ensures { result ≡ row_limit - length core.now.tasks }
{
    let count = core.tasks.count();
    if count < ROW_LIMIT {
        (ROW_LIMIT - count) as u32
    } else {
        0
    }
}

// What the moment makes of the sequences.
fn ticked(core: &mut Core, moment: i64) -> Result<Ticked, SupFault>
    ensures passes { IfOk result (λ _. tick_fault (row_limit - length core.old.tasks) (ticked core.old.offsets moment core.old.supervisors core.old.sequences) ≡ None) }
    ensures told { IfOk result (λ told. told ≡ (ticked core.old.offsets moment core.old.supervisors core.old.sequences).told) }
    ensures rows { OnOk result (core.new ≡ record core.old { sequences = (ticked core.old.offsets moment core.old.supervisors core.old.sequences).rows }) }
    ensures refused { IfErr result (λ why. (why ≡ OutOfMemory) ⊎ (tick_fault (row_limit - length core.old.tasks) (ticked core.old.offsets moment core.old.supervisors core.old.sequences) ≡ Some why)) }
    ensures err { OnErr result (core.new ≡ core.old) }
{
    let left = tasks_left(core);
    core.supervisors.tick(&core.streams, moment, left)
}

fn add_tasks(core: &mut Core, rows: Vec<TaskRow>) -> Result<(), OutOfMemory>
    requires { AreDistinct same_task (core.old.tasks ++ rows.items) }
    ensures { OnOk result (core.new ≡ with_tasks rows.items core.old) }
{
    add_rows(&mut core.tasks, rows)
}

// The clock is the moment, the tasks of abandoned sequences fail, and those of opened ones are
// added.
fn after_tick(
    core: &mut Core,
    alloc: Global,
    moment: i64,
    ended: Items<TaskId>,
    submitted: Items<TaskRow>,
) -> Result<(), OutOfMemory>
    requires { AreDistinct same_task ((all_failed ended (record core.old { clock = moment })).tasks ++ submitted) }
    ensures { OnOk result (core.new ≡ with_tasks submitted (all_failed ended (record core.old { clock = moment }))) }
{
    core.clock = moment;
    core.all_failed(alloc, ended.into_vec())?;
    add_tasks(core, submitted.into_vec())
}

fn told(core: &mut Core, alloc: Global, moment: i64, ticked: Ticked) -> Result<Outcome, OutOfMemory>
    requires { AreDistinct same_task ((all_failed ticked.ended (record core.old { clock = moment })).tasks ++ ticked.submitted) }
    ensures done { IfOk result (λ o. o ≡ record { reply = Replies.Tick ticked.abandoned ticked.opened ticked.paused; changes = true }) }
    ensures after { OnOk result (core.new ≡ with_tasks ticked.submitted (all_failed ticked.ended (record core.old { clock = moment }))) }
{
    let Ticked {
        abandoned,
        paused,
        opened,
        ended,
        submitted,
    } = ticked;
    after_tick(core, alloc, moment, ended, submitted)?;
    Ok(changed(Reply::Tick {
        abandoned,
        opened,
        paused,
    }))
}

/// Moves the supervisors' sequences on to a moment: late ones are abandoned, those whose time is
/// over pause, and new ones open.
pub fn tick(core: &mut Core, alloc: Global, now: i64) -> Result<Outcome, OutOfMemory>
    requires sound { Sound core.old }
    requires after { Sound (tick_step core.old now).book }
    ensures { IfOk result (λ o. IsDone o core.new (tick_step core.old now)) }
{
    let moment = moment(core, now);
    match ticked(core, moment) {
        Ok(ticked) => told(core, alloc, moment, ticked),
        Err(fault) => Ok(refused(tick_refusal(fault)?)),
    }
}
