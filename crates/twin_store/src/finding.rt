// The log that is current in a pair of files is found by their headers.
ghost use Rattle.std.specs.Prelude.{◌≡◌, ◌+◌, ◌<◌, Some, IfOk, IfErr, IsTrue};
ghost use Rattle.host_desk.specs.Desk.{IsOpen, KeepsCounts, Stays};
ghost use Rattle.twin_store.specs.Pairs.{first_file, second_file, wrong, choice};
ghost use Rattle.twin_store.specs.Finding.{Finds, header_of, IsChosen, FindsCurrent};
ghost use Rattle.twin_store.specs.Faults.{FindFault, ChooseFault};
ghost use Rattle.twin_store.specs.declared.fault.StoreFault.TheVariants.{Corrupt};

use crate::StoreFault;
use gate_log::{GateLog, LogFault, open_log};
use host_desk::Host;

// The log in a file, where there is one.
fn find_log<H: Host>(host: &mut H, file: usize, limit: u64) -> Result<Option<GateLog>, StoreFault>
    requires file { IsOpen (H.desk host.old) file }
    ensures opened { (H.desk host.new).opened ≡ (H.desk host.old).opened }
    ensures counts { KeepsCounts (H.desk host.old) (H.desk host.new) }
    ensures disk { IsTrue H.tells → Stays (H.desk host.old) (H.desk host.new) }
    ensures found { IfOk result (Finds H.tells file limit ((H.desk host.old).seen file)) }
    ensures fault { IfErr result (FindFault H.tells file ((H.desk host.old).seen file) (H.desk host.old) (H.desk host.new)) }
{
    match open_log(host, file, limit) {
        Ok(log) => Ok(Some(log)),
        Err(LogFault::Absent) => Ok(None),
        Err(LogFault::Corrupt { at }) => Err(StoreFault::Corrupt { file, at }),
        Err(LogFault::Failed) => Err(StoreFault::Failed),
        Err(LogFault::Full { .. } | LogFault::OutOfMemory) => unreachable!(),
    }
}

// Of two logs that of the greater generation. Equal generations are a fault of the second file.
fn newer_of(
    first: GateLog,
    second: GateLog,
    second_file: usize,
) -> Result<Option<GateLog>, StoreFault>
    ensures chosen { IfOk result (IsChosen (choice (header_of (Some first)) (header_of (Some second))) (Some first) (Some second)) }
    ensures equal { IfErr result (λ fault. (fault ≡ Corrupt second_file 10) × (choice (header_of (Some first)) (header_of (Some second)) ≡ wrong 1 10)) }
{
    if first.generation() == second.generation() {
        return Err(StoreFault::Corrupt {
            file: second_file,
            at: 10,
        });
    }
    if first.generation() < second.generation() {
        Ok(Some(second))
    } else {
        Ok(Some(first))
    }
}

// The log that is current, of those found in the files of a pair.
fn current_of(
    first: Option<GateLog>,
    second: Option<GateLog>,
    second_file: usize,
) -> Result<Option<GateLog>, StoreFault>
    ensures chosen { IfOk result (IsChosen (choice (header_of first) (header_of second)) first second) }
    ensures equal { IfErr result (λ fault. (fault ≡ Corrupt second_file 10) × (choice (header_of first) (header_of second) ≡ wrong 1 10)) }
{
    match (first, second) {
        (Some(first), Some(second)) => newer_of(first, second, second_file),
        (first, None) => Ok(first),
        (None, second) => Ok(second),
    }
}

// The log that is current in a pair, where one of its files has a log.
pub fn find_current<H: Host>(
    host: &mut H,
    pair: usize,
    limit: u64,
) -> Result<Option<GateLog>, StoreFault>
    requires number { pair < 2 }
    requires first { IsOpen (H.desk host.old) (first_file pair) }
    requires second { IsOpen (H.desk host.old) (second_file pair) }
    ensures opened { (H.desk host.new).opened ≡ (H.desk host.old).opened }
    ensures counts { KeepsCounts (H.desk host.old) (H.desk host.new) }
    ensures disk { IsTrue H.tells → Stays (H.desk host.old) (H.desk host.new) }
    ensures found { IfOk result (FindsCurrent H.tells pair limit (H.desk host.old).seen) }
    ensures fault { IfErr result (ChooseFault H.tells pair (H.desk host.old) (H.desk host.new)) }
{
    let first = find_log(host, 2 * pair, limit)?;
    match find_log(host, 2 * pair + 1, limit) {
        Ok(second) => current_of(first, second, 2 * pair + 1),
        Err(fault) => {
            drop(first);
            Err(fault)
        }
    }
}
