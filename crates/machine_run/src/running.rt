//! Items are answered batch by batch.
ghost use Rattle.std.specs.Prelude.{◌≡◌, ◌<◌, List, IfErr, OnOk, IsTrue};
ghost use Rattle.host_desk.specs.Desk.{IsOpen, KeepsCounts};
ghost use Rattle.host_desk.specs.Since.{Since};
ghost use Rattle.machine_run.specs.Runs.{Left, Stored, IsDone, ItemsStop, plan_of};

use crate::feed::Feed;
use crate::filling::{End, fill};
use crate::journal::Journal;
use crate::machine::Machine;
use crate::stop::Stop;
use crate::storing::store_batch;
use host_desk::Host;
use std::alloc::Global;

/// Answers the items of a feed, so many in a batch. What tells the changes of a batch is stored before any of its
/// replies is put out, and no other byte of the files is changed.
pub fn answer_items<M: Machine, S, F: Feed<S, Item = M::Item>, H: Host, J: Journal<H>>(
    alloc: Global,
    host: &mut H,
    feed: &mut F,
    source: &mut S,
    machine: &mut M,
    mut journal: J,
    batch: u64,
) -> Result<(), Stop>
    requires batch { 0 < batch }
    requires fits { F.fits feed.old source.old }
    requires file { IsOpen (H.desk host.old) 0 }
    requires stored { IsTrue H.tells → Stored M.rules J.holds machine.old journal (H.desk host.old) }
    ensures opened { (H.desk host.new).opened ≡ (H.desk host.old).opened }
    ensures counts { KeepsCounts (H.desk host.old) (H.desk host.new) }
    ensures goes { F.goes feed.old source.old feed.new source.new }

    // A stop at any moment of the call, and what it leaves itself.
    ensures any_moment { IsTrue H.tells → IsTrue F.tells → Since (Left M.rules machine.old (F.left feed.old source.old) (H.desk host.old).said) (H.desk host.old) (H.desk host.new) }
    ensures now { IsTrue H.tells → IsTrue F.tells → Left M.rules machine.old (F.left feed.old source.old) (H.desk host.old).said (H.desk host.new).said (H.desk host.new).seen }

    ensures ended { OnOk result (F.ends feed.new source.new) }
    ensures done { let plan = plan_of M.rules J.kept batch (J.limit journal) machine.old (F.left feed.old source.old) (H.desk host.old) in
        IsTrue H.tells → IsTrue F.tells → OnOk result (IsDone plan (H.desk host.new)) }
    ensures stop { let plan = plan_of M.rules J.kept batch (J.limit journal) machine.old (F.left feed.old source.old) (H.desk host.old) in
        let told = IsTrue H.tells × IsTrue F.tells in
        let fails = F.fails feed.old source.old feed.new source.new in
        let broken = F.breaks feed.old source.old source.new in
        IfErr result (ItemsStop plan told fails broken (H.desk host.old) (H.desk host.new)) }
{
    let mut changes = Vec::new(alloc);
    let mut replies = Vec::new(alloc);
    loop {
        let end = fill(
            alloc,
            feed,
            source,
            machine,
            batch,
            &mut changes,
            &mut replies,
        )?;
        journal = store_batch(alloc, host, journal, &changes, &replies)?;
        match end {
            End::Full => {}
            End::Done => return Ok(()),
            End::Failed(stop) => return Err(stop),
        }
    }
}
