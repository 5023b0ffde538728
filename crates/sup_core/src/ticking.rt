//! The clock's step: late sequences are abandoned, those whose time is over pause, and new ones open.
ghost use Rattle.std.specs.Prelude.{◌≡◌, ◌⊎◌, ◌++◌, IfErr, IfOk, None, OnErr, OnOk, Some, false, length, nat_lt};
ghost use Rattle.book_rows.specs.Outcome.{row_limit};
ghost use Rattle.book_rows.specs.Ticks.{ticked};
ghost use Rattle.tab_sequences.specs.Changes.{HaveDistinctNames};
ghost use Rattle.sup_core.specs.ByNames.{abandoned_each, paused_each};
ghost use Rattle.sup_core.specs.Kept.{AreKept};
ghost use Rattle.sup_core.specs.Planning.{carried_out};
ghost use Rattle.sup_core.specs.Ticking.{tick_fault};
ghost use Rattle.sup_core.specs.declared.answers.SupFault.TheVariants.{OutOfMemory};

use crate::OutOfMemory;
use crate::answers::SupFault;
use crate::naming::{abandon_each, pause_each};
use crate::planning::{Plan, plan_all};
use crate::supervising::Supervisor;
use book_rows::{ROW_LIMIT, Table, Ticked};
use row_table::RowList;
use std::alloc::Global;
use tab_sequences::{Sequence, Sequences};
use tab_streams::Streams;

// Why what is planned is refused.
fn plan_fault(plan: &Plan, sequences: &Sequences, tasks_left: u32) -> Option<SupFault>
    requires { nat_lt row_limit (length sequences.now) ≡ false }
    ensures { result ≡ tick_fault tasks_left (carried_out sequences.now plan.now) }
{
    if plan.told.submitted.len() > tasks_left as usize {
        Some(SupFault::Full(Table::Tasks))
    } else if plan.opened.len() > ROW_LIMIT - sequences.count() {
        Some(SupFault::Full(Table::Sequences))
    } else {
        None
    }
}

// Those that open come first: no change after them takes memory. None of the names is one of theirs.
fn carry_out(
    sequences: &mut Sequences,
    told: &Ticked,
    opened: Vec<Sequence>,
) -> Result<(), OutOfMemory>
    requires { HaveDistinctNames (sequences.old ++ opened.items) }
    ensures ok { OnOk result (sequences.new ≡ paused_each told.now.paused (abandoned_each told.now.abandoned (sequences.old ++ opened.items))) }
    ensures err { OnErr result (sequences.new ≡ sequences.old) }
{
    sequences.add_all(opened)?;
    abandon_each(sequences, told.abandoned.as_slice());
    pause_each(sequences, told.paused.as_slice());
    Ok(())
}

// What a tick makes of the sequences, told before anything changes.
fn planned(
    alloc: Global,
    supervisors: &RowList<Supervisor>,
    sequences: &Sequences,
    streams: &Streams,
    moment: i64,
) -> Result<Plan, OutOfMemory>
    requires { AreKept supervisors.now sequences.now }
    ensures whole { IfOk result (λ plan. carried_out sequences.now plan ≡ ticked streams.now.offsets moment supervisors.now sequences.now) }
    ensures distinct { IfOk result (λ plan. HaveDistinctNames (sequences.now ++ plan.opened)) }
    ensures named { IfOk result (λ plan. paused_each plan.told.paused (abandoned_each plan.told.abandoned (sequences.now ++ plan.opened)) ≡ (ticked streams.now.offsets moment supervisors.now sequences.now).rows) }
{
    plan_all(alloc, supervisors.rows(), sequences, streams, moment)
}

/// The clock's step. An error leaves the sequences as they were.
pub fn tick(
    alloc: Global,
    supervisors: &RowList<Supervisor>,
    sequences: &mut Sequences,
    streams: &Streams,
    moment: i64,
    tasks_left: u32,
) -> Result<Ticked, SupFault>
    requires { AreKept supervisors.now sequences.old }
    ensures passes { IfOk result (λ _. tick_fault tasks_left (ticked streams.now.offsets moment supervisors.now sequences.old) ≡ None) }
    ensures told { IfOk result (λ told. told ≡ (ticked streams.now.offsets moment supervisors.now sequences.old).told) }
    ensures rows { OnOk result (sequences.new ≡ (ticked streams.now.offsets moment supervisors.now sequences.old).rows) }
    ensures refused { IfErr result (λ why. (why ≡ OutOfMemory) ⊎ (tick_fault tasks_left (ticked streams.now.offsets moment supervisors.now sequences.old) ≡ Some why)) }
    ensures err { OnErr result (sequences.new ≡ sequences.old) }
{
    let plan = planned(alloc, supervisors, sequences, streams, moment)?;
    if let Some(fault) = plan_fault(&plan, sequences, tasks_left) {
        return Err(fault);
    }
    let Plan { told, opened } = plan;
    carry_out(sequences, &told, opened)?;
    Ok(told)
}
