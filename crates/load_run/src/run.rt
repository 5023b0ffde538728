//! A whole load.
ghost use Rattle.std.specs.Prelude.{◌<◌, ◌^◌, ◌≡◌, ◌⊎◌, IfErr, IsErrOf, IsTrue, None, OnOk, length, ℕ};
ghost use Rattle.std.specs.List.{All};
ghost use Rattle.host_desk.specs.Desk.{KeepsCounts};
ghost use Rattle.machine_run.specs.Ends.{HasOpened, opened_as};
ghost use Rattle.machine_run.specs.Opening.{IsUntouched, StoreIs};
ghost use Rattle.machine_run.specs.Stores.{is_bad};
ghost use Rattle.load_run.specs.Loads.{HasLoaded, LoadLeftNow, LoadLeftSince, LoadStop, loading};

use crate::finishing::load_into;
use crate::items::Items;
use crate::loader::Loader;
use host_desk::Host;
use machine_run::{OneLog, Stop, open_store};
use std::alloc::Global;

/// Opens the store of this name as pair 0, and loads the items with the machine, which begins in its first state: each is
/// stored by a record of its own before the next is taken, and the one line about them is put out once the last is stored.
/// A log may grow to `limit` bytes.
pub fn run_load<M: Loader, I: Items<Item = M::Item>, H: Host>(
    alloc: Global,
    name: &str,
    machine: &mut M,
    items: &mut I,
    host: &mut H,
    limit: u64,
) -> Result<(), Stop>
where
    M::Item: Drop,
    requires closed { (H.desk host.old).opened 0 ≡ None }
    requires fresh { machine.old ≡ M.rules.first }
    requires takes { All M.takes (I.left items.old) }
    requires few { length (I.left items.old) < 2 ^ 64 }
    ensures counts { KeepsCounts (H.desk host.old) (H.desk host.new) }

    // Pair 0 is opened under the name, and no other; at a fault of the store perhaps none.
    ensures opened { ((H.desk host.new).opened ≡ opened_as name.now (H.desk host.old).opened) ⊎ (IsErrOf result Stop.StoreFault × ((H.desk host.new).opened ≡ (H.desk host.old).opened)) }

    // Files that are no store are left alone, at every moment, and nothing is said.
    ensures foreign { IsTrue H.tells → (file at : ℕ) → StoreIs M.rules (H.desk host.old) ≡ is_bad file at → IsUntouched (H.desk host.old) (H.desk host.new) }

    // A stop at any moment leaves the state after a prefix of the items, and nothing of the line is out before the last of
    // them is stored.
    ensures any_moment { let load = loading M.rules M.refuses M.text in
        IsTrue H.tells → LoadLeftSince load (I.left items.old) (H.desk host.old) (H.desk host.new) }
    ensures now { let load = loading M.rules M.refuses M.text in
        IsTrue H.tells → LoadLeftNow load (I.left items.old) (H.desk host.old) (H.desk host.new) }

    ensures opens { IsTrue H.tells → OnOk result (HasOpened M.rules limit (H.desk host.old)) }
    ensures done { let load = loading M.rules M.refuses M.text in
        IsTrue H.tells → OnOk result (HasLoaded load limit (I.left items.old) (H.desk host.old) (H.desk host.new)) }
    ensures stop { let load = loading M.rules M.refuses M.text in
        IfErr result (LoadStop load limit (I.left items.old) H.tells (H.desk host.old) (H.desk host.new)) }
{
    host.open_pair(name, 0)?;
    let log = open_store(alloc, host, machine, limit)?;
    load_into(alloc, host, items, machine, OneLog::over(log))
}
