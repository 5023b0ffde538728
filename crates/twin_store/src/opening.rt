// A store is opened.
ghost use Rattle.std.specs.Prelude.{◌≡◌, ◌<◌, ◌≤◌, [], IfOk, IfErr, OnOk, IsErr, IsTrue, ℕ, List};
ghost use Rattle.host_desk.specs.Desk.{IsOpen, Rose, KeepsCounts};
ghost use Rattle.host_desk.specs.Since.{IsSettled, Touches, Since};
ghost use Rattle.gate_log.specs.Format.{opening_of, absent, new_file};
ghost use Rattle.gate_log.specs.Making.{IsBeingMade};
ghost use Rattle.twin_store.specs.Pairs.{first_file, second_file, neither, choice_in, store_in};
ghost use Rattle.twin_store.specs.Moments.{Nothing, OnlyPair, IsPairTrusted};
ghost use Rattle.twin_store.specs.Stores.{IsOpened, Stands, AreKept, Still};
ghost use Rattle.twin_store.specs.Faults.{NewFault, OpenFault};

use crate::finding::find_current;
use crate::{StoreFault, TwinStore};
use gate_log::{LogFault, make_log};
use host_desk::{Failed, Host};
use std::alloc::Global;

// Makes both files of a pair stable. No stop meanwhile leaves what was not possible before.
fn sync_pair<H: Host>(host: &mut H, pair: usize) -> Result<(), Failed>
    requires number { pair < 2 }
    requires first { IsOpen (H.desk host.old) (first_file pair) }
    requires second { IsOpen (H.desk host.old) (second_file pair) }
    requires trusted { IsTrue H.tells → IsPairTrusted pair (H.desk host.old) }
    ensures opened { (H.desk host.new).opened ≡ (H.desk host.old).opened }
    ensures counts { KeepsCounts (H.desk host.old) (H.desk host.new) }
    ensures cause { IsErr result → Rose (H.desk host.old).store_faults (H.desk host.new).store_faults }
    ensures seen { IsTrue H.tells → (H.desk host.new).seen ≡ (H.desk host.old).seen }
    ensures said { IsTrue H.tells → (H.desk host.new).said ≡ (H.desk host.old).said }
    ensures left { IsTrue H.tells → (i : ℕ) (c : List ℕ) → (H.desk host.new).left i c → (H.desk host.old).left i c }
    ensures any_moment { IsTrue H.tells → Since Nothing (H.desk host.old) (H.desk host.new) }
    ensures first_settled { IsTrue H.tells → OnOk result (IsSettled (H.desk host.new) (first_file pair)) }
    ensures second_settled { IsTrue H.tells → OnOk result (IsSettled (H.desk host.new) (second_file pair)) }
{
    host.sync(2 * pair)?;
    host.sync(2 * pair + 1)?;
    Ok(())
}

// Makes a new store in the first file of a pair of which neither file has a log.
fn make_new<H: Host>(
    alloc: Global,
    host: &mut H,
    pair: usize,
    limit: u64,
) -> Result<TwinStore, StoreFault>
    requires number { pair < 2 }
    requires first { IsOpen (H.desk host.old) (first_file pair) }
    requires none { IsTrue H.tells → choice_in pair (H.desk host.old).seen ≡ neither }
    requires first_settled { IsTrue H.tells → IsSettled (H.desk host.old) (first_file pair) }
    requires second_settled { IsTrue H.tells → IsSettled (H.desk host.old) (second_file pair) }
    ensures opened { (H.desk host.new).opened ≡ (H.desk host.old).opened }
    ensures counts { KeepsCounts (H.desk host.old) (H.desk host.new) }
    ensures any_moment { IsTrue H.tells → Touches (first_file pair) (IsBeingMade ((H.desk host.old).seen (first_file pair)) (new_file 1 [])) (H.desk host.old) (H.desk host.new) }
    ensures is_opened { IfOk result (λ store. IsOpened pair limit store.log) }
    ensures stands { IsTrue H.tells → IfOk result (λ store. Stands store.log (H.desk host.new)) }
    ensures room { OnOk result (27 ≤ limit) }
    ensures fault { IfErr result (NewFault H.tells limit (H.desk host.old) (H.desk host.new)) }
{
    match make_log(alloc, host, 2 * pair, 1, &[], limit) {
        Ok(log) => Ok(TwinStore::over(log)),
        Err(LogFault::Full { length }) => Err(StoreFault::Full { length }),
        Err(LogFault::OutOfMemory) => Err(StoreFault::OutOfMemory),
        Err(LogFault::Failed) => Err(StoreFault::Failed),
        Err(LogFault::Absent | LogFault::Corrupt { .. }) => unreachable!(),
    }
}

// Opens the store in two files whose bytes are stable.
fn open_settled<H: Host>(
    alloc: Global,
    host: &mut H,
    pair: usize,
    limit: u64,
) -> Result<TwinStore, StoreFault>
    requires number { pair < 2 }
    requires first { IsOpen (H.desk host.old) (first_file pair) }
    requires second { IsOpen (H.desk host.old) (second_file pair) }
    requires first_settled { IsTrue H.tells → IsSettled (H.desk host.old) (first_file pair) }
    requires second_settled { IsTrue H.tells → IsSettled (H.desk host.old) (second_file pair) }
    ensures opened { (H.desk host.new).opened ≡ (H.desk host.old).opened }
    ensures counts { KeepsCounts (H.desk host.old) (H.desk host.new) }
    ensures any_moment { IsTrue H.tells → Since (OnlyPair pair (H.desk host.old) (Still (store_in pair (H.desk host.old).seen))) (H.desk host.old) (H.desk host.new) }
    ensures files { IsTrue H.tells → AreKept pair (H.desk host.old) (H.desk host.new) }
    ensures is_opened { IfOk result (λ store. IsOpened pair limit store.log) }
    ensures stands { IsTrue H.tells → IfOk result (λ store. Stands store.log (H.desk host.new)) }
    ensures room { IsTrue H.tells → OnOk result (choice_in pair (H.desk host.old).seen ≡ neither → 27 ≤ limit) }
    ensures fault { IfErr result (OpenFault H.tells pair limit (H.desk host.old) (H.desk host.new)) }
{
    match find_current(host, pair, limit)? {
        Some(log) => Ok(TwinStore::over(log)),
        None => make_new(alloc, host, pair, limit),
    }
}

/// Opens the store in the files of a pair, or makes a new one where neither has a log. It stands before its first record,
/// and a log of it may grow to `limit` bytes.
///
/// `Corrupt`: a header is wrong at that byte of that file, or both logs have one generation, which is told at byte 10 of the
/// second file. `Full` and `OutOfMemory`: a new store is to be made, and it would be longer than the limit, or no memory was
/// left. In these cases the files are as they were. `Failed`: a call on the host failed, and the files say what they said.
pub fn open_store<H: Host>(
    alloc: Global,
    host: &mut H,
    pair: usize,
    limit: u64,
) -> Result<TwinStore, StoreFault>
    requires number { pair < 2 }
    requires first { IsOpen (H.desk host.old) (first_file pair) }
    requires second { IsOpen (H.desk host.old) (second_file pair) }
    requires trusted { IsTrue H.tells → IsPairTrusted pair (H.desk host.old) }
    ensures opened { (H.desk host.new).opened ≡ (H.desk host.old).opened }
    ensures counts { KeepsCounts (H.desk host.old) (H.desk host.new) }

    // A stop at any moment of the call leaves files that say what they say as they are read.
    ensures any_moment { IsTrue H.tells → Since (OnlyPair pair (H.desk host.old) (Still (store_in pair (H.desk host.old).seen))) (H.desk host.old) (H.desk host.new) }

    // However the call ends, no byte is another than before, but for a new store in the first file.
    ensures files { IsTrue H.tells → AreKept pair (H.desk host.old) (H.desk host.new) }

    ensures is_opened { IfOk result (λ store. IsOpened pair limit store.log) }
    ensures stands { IsTrue H.tells → IfOk result (λ store. Stands store.log (H.desk host.new)) }
    ensures room { IsTrue H.tells → OnOk result (choice_in pair (H.desk host.old).seen ≡ neither → 27 ≤ limit) }

    ensures fault { IfErr result (OpenFault H.tells pair limit (H.desk host.old) (H.desk host.new)) }
{
    sync_pair(host, pair)?;
    open_settled(alloc, host, pair, limit)
}
