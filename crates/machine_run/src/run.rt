//! A whole run over a store.
ghost use Rattle.std.specs.Prelude.{◌≡◌, ◌⊎◌, ◌<◌, None, List, ℕ, IfErr, OnOk, IsErrOf, IsTrue};
ghost use Rattle.host_desk.specs.Desk.{KeepsCounts};
ghost use Rattle.machine_run.specs.Stores.{is_bad};
ghost use Rattle.machine_run.specs.Opening.{IsUntouched, StoreIs};
ghost use Rattle.machine_run.specs.Runs.{LeftSince, LeftNow};
ghost use Rattle.machine_run.specs.Ends.{opened_as, HasOpened, HasRun, RunStop};

use crate::feed::Feed;
use crate::machine::Machine;
use crate::one_log::OneLog;
use crate::opening::open_store;
use crate::running::answer_items;
use crate::stop::{Bounds, Stop};
use host_desk::Host;
use std::alloc::Global;

/// Opens the store of this name as pair 0, and answers the items of a feed with the machine, which begins in its first
/// state. What tells the changes of a batch is stored before any of its replies is put out.
pub fn run_store<M: Machine, S, F: Feed<S, Item = M::Item>, H: Host>(
    alloc: Global,
    name: &str,
    machine: &mut M,
    feed: &mut F,
    source: &mut S,
    host: &mut H,
    bounds: Bounds,
) -> Result<(), Stop>
    requires batch { 0 < bounds.batch }
    requires closed { (H.desk host.old).opened 0 ≡ None }
    requires fresh { machine.old ≡ M.rules.first }
    requires fits { F.fits feed.old source.old }
    ensures counts { KeepsCounts (H.desk host.old) (H.desk host.new) }
    ensures goes { F.goes feed.old source.old feed.new source.new }

    // Pair 0 is opened under the name, and no other; at a fault of the store perhaps none.
    ensures opened { ((H.desk host.new).opened ≡ opened_as name.now (H.desk host.old).opened) ⊎ (IsErrOf result Stop.StoreFault × ((H.desk host.new).opened ≡ (H.desk host.old).opened)) }

    // Files that are no store are left alone, at every moment, and nothing is said.
    ensures foreign { IsTrue H.tells → (file at : ℕ) → StoreIs M.rules (H.desk host.old) ≡ is_bad file at → IsUntouched (H.desk host.old) (H.desk host.new) }

    // A stop at any moment leaves the state after a prefix of the items, which has every item whose reply was put out.
    ensures any_moment { IsTrue H.tells → IsTrue F.tells → LeftSince M.rules (F.left feed.old source.old) (H.desk host.old) (H.desk host.new) }
    ensures now { IsTrue H.tells → IsTrue F.tells → LeftNow M.rules (F.left feed.old source.old) (H.desk host.old) (H.desk host.new) }

    ensures opens { IsTrue H.tells → OnOk result (HasOpened M.rules bounds.log (H.desk host.old)) }
    ensures done { IsTrue H.tells → IsTrue F.tells → OnOk result (HasRun M.rules bounds.batch bounds.log (F.left feed.old source.old) (H.desk host.old) (H.desk host.new)) }
    ensures ended { OnOk result (F.ends feed.new source.new) }
    ensures stop { let told = IsTrue H.tells × IsTrue F.tells in
        let fails = F.fails feed.old source.old feed.new source.new in
        let broken = F.breaks feed.old source.old source.new in
        IfErr result (RunStop M.rules bounds.batch bounds.log (F.left feed.old source.old) H.tells told fails broken (H.desk host.old) (H.desk host.new)) }
{
    host.open_pair(name, 0)?;
    let log = open_store(alloc, host, machine, bounds.log)?;
    answer_items(
        alloc,
        host,
        feed,
        source,
        machine,
        OneLog::over(log),
        bounds.batch,
    )
}
