//! A load into a store that is open.
ghost use Rattle.std.specs.Prelude.{◌<◌, ◌^◌, ◌≡◌, IfErr, IsTrue, OnOk, length};
ghost use Rattle.std.specs.List.{All};
ghost use Rattle.host_desk.specs.Desk.{IsOpen, KeepsCounts};
ghost use Rattle.host_desk.specs.Since.{Since};
ghost use Rattle.machine_run.specs.Runs.{Stored, plan_of};
ghost use Rattle.load_run.specs.Loads.{AreLoaded, LoadLeft, LoadingStop, line_of, loading};

use crate::items::Items;
use crate::loader::Loader;
use crate::storing::store_items;
use crate::tally::Tally;
use host_desk::Host;
use machine_run::{Journal, Stop, store_batch};
use std::alloc::Global;

/// Stores the items, and puts out the line about them once the last is stored.
pub fn load_into<M: Loader, I: Items<Item = M::Item>, H: Host, J: Journal<H>>(
    alloc: Global,
    host: &mut H,
    items: &mut I,
    machine: &mut M,
    journal: J,
) -> Result<(), Stop>
where
    M::Item: Drop,
    requires takes { All M.takes (I.left items.old) }
    requires few { length (I.left items.old) < 2 ^ 64 }
    requires file { IsOpen (H.desk host.old) 0 }
    requires stored { IsTrue H.tells → Stored M.rules J.holds machine.old journal (H.desk host.old) }
    ensures opened { (H.desk host.new).opened ≡ (H.desk host.old).opened }
    ensures counts { KeepsCounts (H.desk host.old) (H.desk host.new) }

    // A stop at any moment of the call, and what it leaves itself.
    ensures any_moment { let load = loading M.rules M.refuses M.text in
        IsTrue H.tells → Since (LoadLeft load machine.old (I.left items.old) (H.desk host.old).said) (H.desk host.old) (H.desk host.new) }
    ensures now { let load = loading M.rules M.refuses M.text in
        IsTrue H.tells → LoadLeft load machine.old (I.left items.old) (H.desk host.old).said (H.desk host.new).said (H.desk host.new).seen }

    ensures done { let load = loading M.rules M.refuses M.text in
        let plan = plan_of M.rules J.kept 1 (J.limit journal) machine.old (I.left items.old) (H.desk host.old) in
        IsTrue H.tells → OnOk result (AreLoaded plan (line_of load machine.old (I.left items.old)) (H.desk host.new)) }
    ensures stop { let load = loading M.rules M.refuses M.text in
        let plan = plan_of M.rules J.kept 1 (J.limit journal) machine.old (I.left items.old) (H.desk host.old) in
        IfErr result (LoadingStop plan (line_of load machine.old (I.left items.old)) (IsTrue H.tells) (H.desk host.old) (H.desk host.new)) }
{
    let mut tally = Tally::none();
    let journal = store_items(alloc, host, items, machine, journal, &mut tally)?;
    let line = machine.line(alloc, tally)?;
    let kept = store_batch(alloc, host, journal, &[], &line)?;
    drop(kept);
    Ok(())
}
