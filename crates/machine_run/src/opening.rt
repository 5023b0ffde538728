//! A store is opened.
ghost use Rattle.std.specs.Prelude.{◌≡◌, ◌⊎◌, ◌<◌, ◌≤◌, ◌+◌, [], true, false, Some, None, IfOk, IfErr, OnOk, IsErr, IsErrOf, IsTrue, ℕ};
ghost use Rattle.host_desk.specs.Desk.{IsOpen, Rose, KeepsCounts, Stays};
ghost use Rattle.host_desk.specs.Since.{IsSettled, Since};
ghost use Rattle.gate_log.specs.Format.{opening_of, absent, opened};
ghost use Rattle.gate_log.specs.Log.{Describes, ReadUpTo, snapshot_in};
ghost use Rattle.machine_run.specs.Stores.{is_bad, store_of, no_log, restored_by};
ghost use Rattle.machine_run.specs.OneLogs.{IsStore};
ghost use Rattle.machine_run.specs.Opening.{Nothing, Means, IsOpened, IsUntouched, IsPairTrusted, StoreIs, OpenStop, LoadStop, IsRestored, RestoreStop};

use crate::machine::Machine;
use crate::stop::Stop;
use gate_log::{GateLog, LogFault, make_log, open_log};
use host_desk::{Failed, Host};
use std::alloc::Global;

// Makes both files of pair 0 stable. No stop meanwhile leaves what was not possible before.
fn sync_pair<H: Host>(host: &mut H) -> Result<(), Failed>
    requires first { IsOpen (H.desk host.old) 0 }
    requires second { IsOpen (H.desk host.old) 1 }
    requires trusted { IsTrue H.tells → IsPairTrusted (H.desk host.old) }
    ensures opened { (H.desk host.new).opened ≡ (H.desk host.old).opened }
    ensures counts { KeepsCounts (H.desk host.old) (H.desk host.new) }
    ensures cause { IsErr result → Rose (H.desk host.old).store_faults (H.desk host.new).store_faults }
    ensures seen { IsTrue H.tells → (H.desk host.new).seen ≡ (H.desk host.old).seen }
    ensures said { IsTrue H.tells → (H.desk host.new).said ≡ (H.desk host.old).said }
    ensures any_moment { IsTrue H.tells → Since Nothing (H.desk host.old) (H.desk host.new) }
    ensures first_settled { IsTrue H.tells → OnOk result (IsSettled (H.desk host.new) 0) }
    ensures second_settled { IsTrue H.tells → OnOk result (IsSettled (H.desk host.new) 1) }
{
    host.sync(0)?;
    host.sync(1)?;
    Ok(())
}

// Whether there is no log in the second file.
fn second_is_absent<H: Host>(host: &mut H) -> Result<bool, Failed>
    requires { IsOpen (H.desk host.old) 1 }
    ensures opened { (H.desk host.new).opened ≡ (H.desk host.old).opened }
    ensures counts { KeepsCounts (H.desk host.old) (H.desk host.new) }
    ensures cause { IsErr result → Rose (H.desk host.old).store_faults (H.desk host.new).store_faults }
    ensures disk { IsTrue H.tells → Stays (H.desk host.old) (H.desk host.new) }
    ensures absent { IsTrue H.tells → IfOk result (λ none. no_log (opening_of ((H.desk host.old).seen 1)) ≡ none) }
{
    match open_log(host, 1, 0) {
        Ok(_) => Ok(false),
        Err(LogFault::Absent) => Ok(true),
        Err(LogFault::Failed) => Err(Failed),
        Err(_) => Ok(false),
    }
}

// Makes a new store.
fn open_new<M: Machine, H: Host>(
    alloc: Global,
    host: &mut H,
    machine: &M,
    limit: u64,
) -> Result<GateLog, Stop>
    requires first { IsOpen (H.desk host.old) 0 }
    requires second { IsOpen (H.desk host.old) 1 }
    requires fresh { machine.now ≡ M.rules.first }
    requires first_settled { IsTrue H.tells → IsSettled (H.desk host.old) 0 }
    requires second_settled { IsTrue H.tells → IsSettled (H.desk host.old) 1 }
    requires absent { IsTrue H.tells → opening_of ((H.desk host.old).seen 0) ≡ absent }
    ensures opened { (H.desk host.new).opened ≡ (H.desk host.old).opened }
    ensures counts { KeepsCounts (H.desk host.old) (H.desk host.new) }
    ensures any_moment { IsTrue H.tells → Since (Means M.rules (StoreIs M.rules (H.desk host.old)) (H.desk host.old).said) (H.desk host.old) (H.desk host.new) }
    ensures now { IsTrue H.tells → Means M.rules (StoreIs M.rules (H.desk host.old)) (H.desk host.old).said (H.desk host.new).said (H.desk host.new).seen }
    ensures log { IfOk result (λ log. (log.file ≡ 0) × (log.limit ≡ limit)) }
    ensures store { IsTrue H.tells → IfOk result (IsOpened M.rules (H.desk host.old) (H.desk host.new) machine.now) }
    ensures stop { IfErr result (OpenStop M.rules H.tells limit (H.desk host.old) (H.desk host.new)) }

    // Files that are no store are left alone, at every moment.
    ensures foreign { IsTrue H.tells → (file at : ℕ) → StoreIs M.rules (H.desk host.old) ≡ is_bad file at → IsUntouched (H.desk host.old) (H.desk host.new) }
{
    if !second_is_absent(host)? {
        return Err(Stop::StoreCorrupt { file: 1, at: 0 });
    }
    match make_log(alloc, host, 0, 1, &[], limit) {
        Ok(log) => Ok(log),
        Err(LogFault::Full { length }) => Err(Stop::StoreFull { length }),
        Err(LogFault::OutOfMemory) => Err(Stop::NoMemory),
        Err(LogFault::Failed) => Err(Stop::StoreFault),
        Err(LogFault::Absent | LogFault::Corrupt { .. }) => unreachable!(),
    }
}

// Reads all records, and brings the machine from the snapshot's state to the state behind them.
fn restore_all<M: Machine, H: Host>(
    alloc: Global,
    host: &mut H,
    machine: &mut M,
    mut log: GateLog,
) -> Result<GateLog, Stop>
    requires file { IsOpen (H.desk host.old) 0 }
    requires first { log.file ≡ 0 }
    requires place { log.place ≡ 26 + log.snapshot_length }
    requires read { IsTrue H.tells → ReadUpTo ((H.desk host.old).seen 0) log [] }
    ensures opened { (H.desk host.new).opened ≡ (H.desk host.old).opened }
    ensures counts { KeepsCounts (H.desk host.old) (H.desk host.new) }
    ensures disk { IsTrue H.tells → Stays (H.desk host.old) (H.desk host.new) }
    ensures log { IfOk result (λ after. after ≡ record log { place = after.place }) }
    ensures restored { IsTrue H.tells → IfOk result (λ after. IsRestored M.rules ((H.desk host.old).seen 0) machine.old machine.new after) }
    ensures stop { IfErr result (RestoreStop M.rules H.tells ((H.desk host.old).seen 0) machine.old log.place (H.desk host.old) (H.desk host.new)) }
{
    let mut body = Vec::new(alloc);
    loop {
        let at = log.place();
        match log.next_body(host, &mut body) {
            Ok(true) => {
                if !machine.restore(alloc, &body)? {
                    return Err(Stop::StoreCorrupt { file: 0, at });
                }
            }
            Ok(false) => return Ok(log),
            Err(LogFault::Failed) => return Err(Stop::StoreFault),
            Err(LogFault::OutOfMemory) => return Err(Stop::NoMemory),
            Err(LogFault::Corrupt { at }) => return Err(Stop::StoreCorrupt { file: 0, at }),
            Err(LogFault::Absent | LogFault::Full { .. }) => unreachable!(),
        }
    }
}

// Brings the machine from its first state to that of the log's snapshot. False where the bytes are none: where they are more
// than a snapshot has, they aren't read, since the length is a stranger's word.
fn load_snapshot<M: Machine, H: Host>(
    alloc: Global,
    host: &mut H,
    machine: &mut M,
    log: &GateLog,
) -> Result<bool, Stop>
    requires file { IsOpen (H.desk host.old) 0 }
    requires first { log.now.file ≡ 0 }
    requires fresh { machine.old ≡ M.rules.first }
    requires place { log.now.place ≡ 26 + log.now.snapshot_length }
    requires describes { IsTrue H.tells → Describes log.now ((H.desk host.old).seen 0) }
    ensures opened { (H.desk host.new).opened ≡ (H.desk host.old).opened }
    ensures counts { KeepsCounts (H.desk host.old) (H.desk host.new) }
    ensures disk { IsTrue H.tells → Stays (H.desk host.old) (H.desk host.new) }
    ensures yes { IsTrue H.tells → IfOk result (λ good. good ≡ true → M.rules.load (snapshot_in log.now ((H.desk host.old).seen 0)) ≡ Some machine.new) }
    ensures no { IsTrue H.tells → IfOk result (λ good. good ≡ false → M.rules.load (snapshot_in log.now ((H.desk host.old).seen 0)) ≡ None) }
    ensures stop { IfErr result (LoadStop H.tells (H.desk host.old) (H.desk host.new)) }
{
    if log.snapshot_length() > machine.longest() {
        return Ok(false);
    }
    match log.snapshot(alloc, host) {
        Ok(snapshot) => Ok(machine.load(alloc, &snapshot)?),
        Err(LogFault::Failed) => Err(Stop::StoreFault),
        Err(LogFault::OutOfMemory) => Err(Stop::NoMemory),
        Err(LogFault::Corrupt { .. }) => Ok(false),
        Err(LogFault::Absent | LogFault::Full { .. }) => unreachable!(),
    }
}

// Opens the store whose log stands in the first file.
fn open_old<M: Machine, H: Host>(
    alloc: Global,
    host: &mut H,
    machine: &mut M,
    log: GateLog,
) -> Result<GateLog, Stop>
    requires file { IsOpen (H.desk host.old) 0 }
    requires second { IsOpen (H.desk host.old) 1 }
    requires first { log.file ≡ 0 }
    requires fresh { machine.old ≡ M.rules.first }
    requires place { log.place ≡ 26 + log.snapshot_length }
    requires first_settled { IsTrue H.tells → IsSettled (H.desk host.old) 0 }
    requires second_settled { IsTrue H.tells → IsSettled (H.desk host.old) 1 }
    requires read { IsTrue H.tells → ReadUpTo ((H.desk host.old).seen 0) log [] }
    ensures opened { (H.desk host.new).opened ≡ (H.desk host.old).opened }
    ensures counts { KeepsCounts (H.desk host.old) (H.desk host.new) }
    ensures disk { IsTrue H.tells → Stays (H.desk host.old) (H.desk host.new) }
    ensures log { IfOk result (λ after. (after.file ≡ 0) × (after.limit ≡ log.limit)) }
    ensures store { IsTrue H.tells → IfOk result (IsOpened M.rules (H.desk host.old) (H.desk host.new) machine.new) }
    ensures stop { IfErr result (OpenStop M.rules H.tells log.limit (H.desk host.old) (H.desk host.new)) }
{
    if !load_snapshot(alloc, host, machine, &log)? {
        return Err(Stop::StoreCorrupt { file: 0, at: 18 });
    }
    if !second_is_absent(host)? {
        return Err(Stop::StoreCorrupt { file: 1, at: 0 });
    }
    restore_all(alloc, host, machine, log)
}

// Opens the store in two files whose bytes are stable.
fn open_settled<M: Machine, H: Host>(
    alloc: Global,
    host: &mut H,
    machine: &mut M,
    limit: u64,
) -> Result<GateLog, Stop>
    requires file { IsOpen (H.desk host.old) 0 }
    requires second { IsOpen (H.desk host.old) 1 }
    requires fresh { machine.old ≡ M.rules.first }
    requires first_settled { IsTrue H.tells → IsSettled (H.desk host.old) 0 }
    requires second_settled { IsTrue H.tells → IsSettled (H.desk host.old) 1 }
    ensures opened { (H.desk host.new).opened ≡ (H.desk host.old).opened }
    ensures counts { KeepsCounts (H.desk host.old) (H.desk host.new) }
    ensures any_moment { IsTrue H.tells → Since (Means M.rules (StoreIs M.rules (H.desk host.old)) (H.desk host.old).said) (H.desk host.old) (H.desk host.new) }
    ensures now { IsTrue H.tells → Means M.rules (StoreIs M.rules (H.desk host.old)) (H.desk host.old).said (H.desk host.new).said (H.desk host.new).seen }
    ensures log { IfOk result (λ log. (log.file ≡ 0) × (log.limit ≡ limit)) }
    ensures store { IsTrue H.tells → IfOk result (IsOpened M.rules (H.desk host.old) (H.desk host.new) machine.new) }
    ensures stop { IfErr result (OpenStop M.rules H.tells limit (H.desk host.old) (H.desk host.new)) }

    // Files that are no store are left alone, at every moment.
    ensures foreign { IsTrue H.tells → (file at : ℕ) → StoreIs M.rules (H.desk host.old) ≡ is_bad file at → IsUntouched (H.desk host.old) (H.desk host.new) }
{
    match open_log(host, 0, limit) {
        Ok(log) => open_old(alloc, host, machine, log),
        Err(LogFault::Absent) => open_new(alloc, host, machine, limit),
        Err(LogFault::Corrupt { at }) => Err(Stop::StoreCorrupt { file: 0, at }),
        Err(LogFault::Failed) => Err(Stop::StoreFault),
        Err(LogFault::Full { .. } | LogFault::OutOfMemory) => unreachable!(),
    }
}

/// Opens the store of pair 0, or makes a new one, and brings the machine from its first state to the store's. A log may
/// grow to `limit` bytes.
pub fn open_store<M: Machine, H: Host>(
    alloc: Global,
    host: &mut H,
    machine: &mut M,
    limit: u64,
) -> Result<GateLog, Stop>
    requires file { IsOpen (H.desk host.old) 0 }
    requires second { IsOpen (H.desk host.old) 1 }
    requires trusted { IsTrue H.tells → IsPairTrusted (H.desk host.old) }
    requires fresh { machine.old ≡ M.rules.first }
    ensures opened { (H.desk host.new).opened ≡ (H.desk host.old).opened }
    ensures counts { KeepsCounts (H.desk host.old) (H.desk host.new) }
    ensures any_moment { IsTrue H.tells → Since (Means M.rules (StoreIs M.rules (H.desk host.old)) (H.desk host.old).said) (H.desk host.old) (H.desk host.new) }
    ensures now { IsTrue H.tells → Means M.rules (StoreIs M.rules (H.desk host.old)) (H.desk host.old).said (H.desk host.new).said (H.desk host.new).seen }
    ensures log { IfOk result (λ log. (log.file ≡ 0) × (log.limit ≡ limit)) }
    ensures store { IsTrue H.tells → IfOk result (IsOpened M.rules (H.desk host.old) (H.desk host.new) machine.new) }
    ensures stop { IfErr result (OpenStop M.rules H.tells limit (H.desk host.old) (H.desk host.new)) }

    // Files that are no store are left alone, at every moment.
    ensures foreign { IsTrue H.tells → (file at : ℕ) → StoreIs M.rules (H.desk host.old) ≡ is_bad file at → IsUntouched (H.desk host.old) (H.desk host.new) }
{
    sync_pair(host)?;
    open_settled(alloc, host, machine, limit)
}
