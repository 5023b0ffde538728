//! The items of a load are stored, each by a record of its own, and counted.
ghost use Rattle.std.specs.Prelude.{◌+◌, ◌<◌, ◌^◌, ◌≡◌, IfErr, IfOk, IsTrue, OnOk, false, length, true};
ghost use Rattle.std.specs.List.{All};
ghost use Rattle.host_desk.specs.Desk.{IsOpen, KeepsCounts};
ghost use Rattle.host_desk.specs.Since.{Since};
ghost use Rattle.machine_run.specs.Rules.{state_after};
ghost use Rattle.machine_run.specs.Runs.{IsDone, ItemsStop, Left, Stored, plan_of};
ghost use Rattle.load_run.specs.Loads.{lacks_alone, loading, no_items, nowhere, tallied};
ghost use Rattle.load_run.specs.Steps.{IsEnd, IsStep};

use crate::items::Items;
use crate::loader::Loader;
use crate::tally::Tally;
use host_desk::{Host, OutOfMemory};
use machine_run::{Journal, Stop, store_batch};
use std::alloc::Global;

// Takes the first item, decides it and counts it. False where none is left.
fn take_next<M: Loader, I: Items<Item = M::Item>>(
    alloc: Global,
    items: &mut I,
    machine: &mut M,
    changes: &mut Vec<u8>,
    tally: &mut Tally,
) -> Result<bool, OutOfMemory>
where
    M::Item: Drop,
    requires takes { All M.takes (I.left items.old) }
    requires few { tally.old.done + tally.old.refused + length (I.left items.old) < 2 ^ 64 }
    ensures step { let load = loading M.rules M.refuses M.text in
        IfOk result (λ more. more ≡ true → IsStep load (I.left items.old) (I.left items.new) machine.old machine.new changes.new.items tally.old tally.new) }
    ensures end { IfOk result (λ more. more ≡ false → IsEnd (I.left items.old) machine.old machine.new tally.old tally.new) }
{
    changes.clear();
    match items.next(alloc)? {
        None => Ok(false),
        Some(item) => {
            let taken = machine.take(alloc, &item, changes);
            drop(item);
            *tally = tally.counted(taken?);
            Ok(true)
        }
    }
}

/// Decides the items and stores what each changes before the next is taken. Nothing is said.
pub fn store_items<M: Loader, I: Items<Item = M::Item>, H: Host, J: Journal<H>>(
    alloc: Global,
    host: &mut H,
    items: &mut I,
    machine: &mut M,
    mut journal: J,
    tally: &mut Tally,
) -> Result<J, Stop>
where
    M::Item: Drop,
    requires takes { All M.takes (I.left items.old) }
    requires few { length (I.left items.old) < 2 ^ 64 }
    requires uncounted { tally.old ≡ no_items }
    requires file { IsOpen (H.desk host.old) 0 }
    requires stored { IsTrue H.tells → Stored M.rules J.holds machine.old journal (H.desk host.old) }
    ensures opened { (H.desk host.new).opened ≡ (H.desk host.old).opened }
    ensures counts { KeepsCounts (H.desk host.old) (H.desk host.new) }

    // A stop at any moment of the call, and what it leaves itself.
    ensures any_moment { IsTrue H.tells → Since (Left M.rules machine.old (I.left items.old) (H.desk host.old).said) (H.desk host.old) (H.desk host.new) }
    ensures now { IsTrue H.tells → Left M.rules machine.old (I.left items.old) (H.desk host.old).said (H.desk host.new).said (H.desk host.new).seen }

    ensures state { OnOk result (machine.new ≡ state_after M.rules machine.old (I.left items.old)) }
    ensures tally { let load = loading M.rules M.refuses M.text in
        OnOk result (tally.new ≡ tallied load no_items machine.old (I.left items.old)) }
    ensures store { IsTrue H.tells → IfOk result (λ after. Stored M.rules J.holds machine.new after (H.desk host.new)) }
    ensures done { let plan = plan_of M.rules J.kept 1 (J.limit journal) machine.old (I.left items.old) (H.desk host.old) in
        IsTrue H.tells → OnOk result (IsDone plan (H.desk host.new)) }
    ensures stop { let plan = plan_of M.rules J.kept 1 (J.limit journal) machine.old (I.left items.old) (H.desk host.old) in
        IfErr result (ItemsStop plan (IsTrue H.tells) lacks_alone nowhere (H.desk host.old) (H.desk host.new)) }
{
    let mut changes = Vec::new(alloc);
    loop {
        if !take_next(alloc, items, machine, &mut changes, tally)? {
            return Ok(journal);
        }
        journal = store_batch(alloc, host, journal, &changes, &[])?;
    }
}
