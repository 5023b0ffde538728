// A store that is open in a pair of files.
ghost use Rattle.std.specs.Prelude.{◌≡◌, ◌⊎◌, ◌≢◌, ◌<◌, ◌≤◌, ◌+◌, ◌/◌, [], ℕ, length, IfOk, OnOk, IfErr, IsErr, IsErrOf, IsTrue, IsFalse};
ghost use Rattle.host_desk.specs.Desk.{IsOpen, KeepsCounts, Stays};
ghost use Rattle.host_desk.specs.Since.{Touches};
ghost use Rattle.gate_log.specs.Format.{EndsAt, new_file};
ghost use Rattle.gate_log.specs.Log.{snapshot_in, new_log, grown, HasNext, GoesOn, with_record_at};
ghost use Rattle.gate_log.specs.Making.{IsBeingMade};
ghost use Rattle.twin_store.specs.Pairs.{is_store, with_body, other_of, store_in};
ghost use Rattle.twin_store.specs.Moments.{TouchesPair, IsPairSettled};
ghost use Rattle.twin_store.specs.Stores.{IsCurrent, WithOrWithout, IsTurning, HasAll};
ghost use Rattle.twin_store.specs.Faults.{SnapshotFault, NextFault, AppendFault, TurnFault};

use crate::StoreFault;
use gate_log::{Frame, GateLog, LogFault, make_log};
use host_desk::Host;
use std::alloc::Global;

/// A store in a pair of files of a host, read up to a place of the log that is current.
///
/// Both files are to stay as the call that gave the value left them, until the next call on the value.
#[derive(Drop)]
pub struct TwinStore {
    log: GateLog,
}

// The number of the other file of a file's pair.
fn other_file(file: usize) -> usize
    requires { file < 4 }
    ensures { result ≡ other_of file }
{
    match file {
        0 => 1,
        1 => 0,
        2 => 3,
        _ => 2,
    }
}

impl TwinStore {
    // The store whose current log this is.
    pub(crate) fn over(log: GateLog) -> TwinStore
        ensures { result.log ≡ log }
    {
        TwinStore { log }
    }

    /// The number of the current file on the host.
    pub fn file(&self) -> usize
        ensures { result ≡ self.now.log.file }
    {
        self.log.file()
    }

    /// The generation of the current log.
    pub fn generation(&self) -> u64
        ensures { result ≡ self.now.log.generation }
    {
        self.log.generation()
    }

    /// The length of its snapshot in bytes.
    pub fn snapshot_length(&self) -> u64
        ensures { result ≡ self.now.log.snapshot_length }
    {
        self.log.snapshot_length()
    }

    /// The place in the current file at which the next record to be read or written begins. It lies behind the snapshot.
    pub fn place(&self) -> u64
        ensures value { result ≡ self.now.log.place }
        ensures behind { 26 + self.now.log.snapshot_length ≤ result }
    {
        self.log.place()
    }

    /// The length above which no record is added to a log, and none is made.
    pub fn limit(&self) -> u64
        ensures { result ≡ self.now.log.limit }
    {
        self.log.limit()
    }

    /// Reads the snapshot.
    ///
    /// `Failed`: a call on the host failed. `Corrupt`: the host gave fewer bytes than it had told, at byte 18.
    pub fn snapshot<H: Host>(&self, alloc: Global, host: &mut H) -> Result<Vec<u8>, StoreFault>
        requires file { IsOpen (H.desk host.old) self.now.log.file }
        requires current { IsTrue H.tells → IsCurrent self.now.log (H.desk host.old).seen }
        ensures opened { (H.desk host.new).opened ≡ (H.desk host.old).opened }
        ensures counts { KeepsCounts (H.desk host.old) (H.desk host.new) }
        ensures disk { IsTrue H.tells → Stays (H.desk host.old) (H.desk host.new) }
        ensures whole { IfOk result (λ bytes. length bytes.items ≡ self.now.log.snapshot_length) }
        ensures bytes { IsTrue H.tells → IfOk result (λ bytes. bytes.items ≡ snapshot_in self.now.log ((H.desk host.old).seen self.now.log.file)) }
        ensures fault { IfErr result (SnapshotFault H.tells self.now.log (H.desk host.old) (H.desk host.new)) }
    {
        match self.log.snapshot(alloc, host) {
            Ok(bytes) => Ok(bytes),
            Err(LogFault::Failed) => Err(StoreFault::Failed),
            Err(LogFault::OutOfMemory) => Err(StoreFault::OutOfMemory),
            Err(LogFault::Corrupt { at }) => Err(StoreFault::Corrupt {
                file: self.log.file(),
                at,
            }),
            Err(LogFault::Absent | LogFault::Full { .. }) => unreachable!(),
        }
    }

    /// Reads the next body into the vector, in place of what it holds, and goes on behind it. False at the log's end.
    ///
    /// `Corrupt`: the record at the store's place isn't whole with the next gate, or its length is 0. `Failed`: a call on
    /// the host failed. At an error the store is as it was, and nothing is said of the vector.
    pub fn next_body<H: Host>(
        &mut self,
        host: &mut H,
        into: &mut Vec<u8>,
    ) -> Result<bool, StoreFault>
        requires file { IsOpen (H.desk host.old) self.old.log.file }
        requires current { IsTrue H.tells → IsCurrent self.old.log (H.desk host.old).seen }
        ensures opened { (H.desk host.new).opened ≡ (H.desk host.old).opened }
        ensures counts { KeepsCounts (H.desk host.old) (H.desk host.new) }
        ensures disk { IsTrue H.tells → Stays (H.desk host.old) (H.desk host.new) }

        // Of the store nothing but its place changes, and this grows, whatever the host tells.
        ensures moved { self.new.log ≡ record self.old.log { place = self.new.log.place } }
        ensures goes_on { IfOk result (λ more. IsTrue more → GoesOn self.old.log self.new.log) }

        ensures more { IsTrue H.tells → IfOk result (λ more. IsTrue more → HasNext ((H.desk host.old).seen self.old.log.file) self.old.log self.new.log into.new.items) }
        ensures ended { IsTrue H.tells → IfOk result (λ more. IsFalse more → HasAll self.old.log (H.desk host.old).seen) }
        ensures ended_stays { IfOk result (λ more. IsFalse more → self.new.log ≡ self.old.log) }

        // It can be read on.
        ensures current { IsTrue H.tells → IsCurrent self.new.log (H.desk host.new).seen }

        ensures fault { IfErr result (NextFault H.tells self.old.log (H.desk host.old) (H.desk host.new)) }
        ensures fault_stays { IsErr result → self.new.log ≡ self.old.log }
    {
        match self.log.next_body(host, into) {
            Ok(more) => Ok(more),
            Err(LogFault::Failed) => Err(StoreFault::Failed),
            Err(LogFault::OutOfMemory) => Err(StoreFault::OutOfMemory),
            Err(LogFault::Corrupt { at }) => Err(StoreFault::Corrupt {
                file: self.log.file(),
                at,
            }),
            Err(LogFault::Absent | LogFault::Full { .. }) => unreachable!(),
        }
    }

    /// Adds a record to a store that was read to its end. It takes no memory.
    ///
    /// At `Ok` the record is on the disk: whatever a stop leaves from then on has it.
    /// `Full`: with the record the log would be longer than the limit; the length is that of the log without it, and
    /// nothing was written. `Failed`: a call on the host failed, and the record is there or isn't. No other error is
    /// answered. At an error the store is to be opened again.
    pub fn append<H: Host>(self, host: &mut H, frame: &Frame) -> Result<TwinStore, StoreFault>
        requires file { IsOpen (H.desk host.old) self.log.file }
        requires current { IsTrue H.tells → IsCurrent self.log (H.desk host.old).seen }
        requires ended { IsTrue H.tells → EndsAt ((H.desk host.old).seen self.log.file) self.log.place }
        requires settled { IsTrue H.tells → IsPairSettled self.log.file (H.desk host.old) }
        ensures opened { (H.desk host.new).opened ≡ (H.desk host.old).opened }
        ensures counts { KeepsCounts (H.desk host.old) (H.desk host.new) }

        // A stop at any moment of the call leaves the bodies from before it, with the new one or without.
        ensures any_moment { IsTrue H.tells → TouchesPair (self.log.file / 2) (WithOrWithout (store_in (self.log.file / 2) (H.desk host.old).seen) frame.now) (H.desk host.old) (H.desk host.new) }

        ensures log { IfOk result (λ store. store.log ≡ grown self.log (length frame.now)) }
        ensures added { IsTrue H.tells → OnOk result (store_in (self.log.file / 2) (H.desk host.new).seen ≡ with_body (store_in (self.log.file / 2) (H.desk host.old).seen) frame.now) }

        // No byte is another than the record says.
        ensures bytes { IsTrue H.tells → OnOk result ((H.desk host.new).seen self.log.file ≡ with_record_at self.log.place frame.now ((H.desk host.old).seen self.log.file)) }
        ensures others { IsTrue H.tells → (i : ℕ) → i ≢ self.log.file → (H.desk host.new).seen i ≡ (H.desk host.old).seen i }

        // The store can be appended to again, and turned.
        ensures current { IsTrue H.tells → IfOk result (λ store. IsCurrent store.log (H.desk host.new).seen) }
        ensures ended { IsTrue H.tells → IfOk result (λ store. EndsAt ((H.desk host.new).seen self.log.file) store.log.place) }
        ensures settled { IsTrue H.tells → OnOk result (IsPairSettled self.log.file (H.desk host.new)) }

        ensures fault { IfErr result (AppendFault self.log (length frame.now) (H.desk host.old) (H.desk host.new)) }
        ensures full { self.log.limit < self.log.place + 6 + length frame.now → IsErrOf result (StoreFault.Full (self.log.place + 1)) }
        ensures full_leaves { IsErrOf result (StoreFault.Full (self.log.place + 1)) → host.new ≡ host.old }
    {
        match self.log.append(host, frame) {
            Ok(log) => Ok(TwinStore { log }),
            Err(LogFault::Full { length }) => Err(StoreFault::Full { length }),
            Err(LogFault::Failed) => Err(StoreFault::Failed),
            Err(LogFault::Absent | LogFault::Corrupt { .. } | LogFault::OutOfMemory) => {
                unreachable!()
            }
        }
    }

    /// Turns the store to the other file of its pair: a log of the next generation with this snapshot, which is to stand for
    /// all that the store has, and no records. The old file is left as it is. All memory is taken before the first write.
    ///
    /// At `Ok` the new log is on the disk: whatever a stop leaves from then on has it.
    /// `Full`: the new file would be longer than the limit. `OutOfMemory`: no memory was left. In both cases nothing was
    /// written. `Failed`: a call on the host failed, and the old log is current or the new one. No other error is answered.
    /// At an error the store is to be opened again.
    pub fn turn<H: Host>(
        self,
        alloc: Global,
        host: &mut H,
        snapshot: &[u8],
    ) -> Result<TwinStore, StoreFault>
        requires file { IsOpen (H.desk host.old) self.log.file }
        requires generation { self.log.generation < 18446744073709551615 }
        requires current { IsTrue H.tells → IsCurrent self.log (H.desk host.old).seen }
        requires settled { IsTrue H.tells → IsPairSettled self.log.file (H.desk host.old) }
        ensures opened { (H.desk host.new).opened ≡ (H.desk host.old).opened }
        ensures counts { KeepsCounts (H.desk host.old) (H.desk host.new) }

        // A stop at any moment of the call leaves the store from before it, or the new log with the snapshot alone.
        ensures any_moment { IsTrue H.tells → TouchesPair (self.log.file / 2) (IsTurning (store_in (self.log.file / 2) (H.desk host.old).seen) self.log.generation snapshot.now) (H.desk host.old) (H.desk host.new) }

        // No file but the other is touched: that is as it was, or has no log, or is the new file, at every moment.
        ensures other { IsTrue H.tells → Touches (other_of self.log.file) (IsBeingMade ((H.desk host.old).seen (other_of self.log.file)) (new_file (self.log.generation + 1) snapshot.now)) (H.desk host.old) (H.desk host.new) }

        ensures log { IfOk result (λ store. store.log ≡ new_log (other_of self.log.file) (self.log.generation + 1) (length snapshot.now) self.log.limit) }
        ensures turned { IsTrue H.tells → OnOk result (store_in (self.log.file / 2) (H.desk host.new).seen ≡ is_store (self.log.generation + 1) snapshot.now []) }
        ensures bytes { IsTrue H.tells → OnOk result ((H.desk host.new).seen (other_of self.log.file) ≡ new_file (self.log.generation + 1) snapshot.now) }

        // The store can be appended to, and turned again.
        ensures current { IsTrue H.tells → IfOk result (λ store. IsCurrent store.log (H.desk host.new).seen) }
        ensures ended { IsTrue H.tells → IfOk result (λ store. EndsAt ((H.desk host.new).seen (other_of self.log.file)) store.log.place) }
        ensures settled { IsTrue H.tells → OnOk result (IsPairSettled (other_of self.log.file) (H.desk host.new)) }

        ensures fault { IfErr result (TurnFault self.log (length snapshot.now) (H.desk host.old) (H.desk host.new)) }
        ensures full { self.log.limit < 27 + length snapshot.now → IsErrOf result (StoreFault.Full 0) }
        ensures full_leaves { IsErrOf result (StoreFault.Full 0) ⊎ IsErrOf result StoreFault.OutOfMemory → host.new ≡ host.old }
    {
        let other = other_file(self.log.file());
        let generation = self.log.generation() + 1;
        match make_log(alloc, host, other, generation, snapshot, self.log.limit()) {
            Ok(log) => Ok(TwinStore { log }),
            Err(LogFault::Full { length }) => Err(StoreFault::Full { length }),
            Err(LogFault::OutOfMemory) => Err(StoreFault::OutOfMemory),
            Err(LogFault::Failed) => Err(StoreFault::Failed),
            Err(LogFault::Absent | LogFault::Corrupt { .. }) => unreachable!(),
        }
    }
}
