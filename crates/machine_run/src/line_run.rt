//! A whole run over the lines of a source.
ghost use Rattle.std.specs.Prelude.{◌≡◌, ◌⊎◌, ◌+◌, ◌<◌, ◌≤◌, [], None, length, List, ℕ, IfErr, OnOk, IsErrOf, IsTrue};
ghost use Rattle.host_desk.specs.Desk.{KeepsCounts};
ghost use Rattle.machine_run.specs.Stores.{is_bad};
ghost use Rattle.machine_run.specs.Opening.{IsUntouched, StoreIs};
ghost use Rattle.machine_run.specs.Runs.{LeftSince, LeftNow};
ghost use Rattle.machine_run.specs.LineItems.{LineItem, items_of};
ghost use Rattle.machine_run.specs.LineEnds.{LinesStop};
ghost use Rattle.machine_run.specs.Ends.{opened_as, HasOpened, HasRun};

use crate::lines::{Line, LineFeed};
use crate::machine::Machine;
use crate::run::run_store;
use crate::stop::{Bounds, Stop};
use host_desk::{Host, Source};
use std::alloc::Global;

/// `run_store` over the lines of a source, of which at most `limit` bytes are read.
pub fn run_lines<M: Machine<Item = Line>, H: Host, S: Source>(
    alloc: Global,
    name: &str,
    machine: &mut M,
    source: &mut S,
    limit: u64,
    host: &mut H,
    bounds: Bounds,
) -> Result<(), Stop>
    requires batch { 0 < bounds.batch }
    requires closed { (H.desk host.old).opened 0 ≡ None }
    requires fresh { machine.old ≡ M.rules.first }
    ensures counts { KeepsCounts (H.desk host.old) (H.desk host.new) }
    ensures source_counts { S.faults source.old ≤ S.faults source.new }
    ensures opened { ((H.desk host.new).opened ≡ opened_as name.now (H.desk host.old).opened) ⊎ (IsErrOf result Stop.StoreFault × ((H.desk host.new).opened ≡ (H.desk host.old).opened)) }
    ensures foreign { IsTrue H.tells → (file at : ℕ) → StoreIs M.rules (H.desk host.old) ≡ is_bad file at → IsUntouched (H.desk host.old) (H.desk host.new) }
    ensures any_moment { IsTrue H.tells → IsTrue S.tells → LeftSince M.rules (items_of (S.remaining source.old)) (H.desk host.old) (H.desk host.new) }
    ensures now { IsTrue H.tells → IsTrue S.tells → LeftNow M.rules (items_of (S.remaining source.old)) (H.desk host.old) (H.desk host.new) }
    ensures opens { IsTrue H.tells → OnOk result (HasOpened M.rules bounds.log (H.desk host.old)) }
    ensures done { IsTrue H.tells → IsTrue S.tells → OnOk result (HasRun M.rules bounds.batch bounds.log (items_of (S.remaining source.old)) (H.desk host.old) (H.desk host.new)) }
    ensures read { IsTrue S.tells → OnOk result ((S.remaining source.new ≡ []) × (length (S.remaining source.old) < limit)) }

    // No more than the limit of the input is read, whatever the source has.
    ensures within { IsTrue S.tells → length (S.remaining source.old) ≤ limit + length (S.remaining source.new) }
    ensures stop { let before = H.desk host.old in
        let bytes = S.remaining source.old in
        let left = S.remaining source.new in
        IfErr result (LinesStop M.rules bounds.batch bounds.log limit H.tells S.tells before bytes (S.faults source.old) (H.desk host.new) left (S.faults source.new)) }
{
    let mut feed = LineFeed::new(alloc, limit);
    run_store(alloc, name, machine, &mut feed, source, host, bounds)
}
