// A log that was opened or made.
ghost use Rattle.std.specs.Prelude.{◌≡◌, ◌⊎◌, ◌↔◌, ◌<◌, ◌≤◌, ◌+◌, length, IfOk, OnOk, IfErr, IsErr, IsErrOf, IsTrue, IsFalse};
ghost use Rattle.host_desk.specs.Desk.{IsOpen, Rose, KeepsCounts, Stays};
ghost use Rattle.host_desk.specs.Since.{IsSettled, Touches};
ghost use Rattle.gate_log.specs.Format.{says, with_body, EndsAt};
ghost use Rattle.gate_log.specs.Log.{IsWithin, Describes, snapshot_in, HasNext, HasEnded, GoesOn, grown, IsWithOrWithout, HasRecord, with_record_at};
ghost use Rattle.gate_log.specs.Faults.{SnapshotFault, NextFault, AppendFault};

use crate::reading::{Head, read_body, read_head, read_snapshot};
use crate::through::write_through;
use crate::{Frame, LogFault};
use host_desk::{Failed, Host};
use std::alloc::Global;
use std::marker::Model;

/// A log in a file of a host, read up to a place.
///
/// Its file is to stay as the call that gave the value left it, until the next call on the value.
#[derive(Drop)]
pub struct GateLog {
    file: usize,
    generation: u64,
    snapshot_length: u64,
    place: u64,
    file_length: u64,
    limit: u64,
}

impl Model for GateLog {
    ghost use Rattle.gate_log.specs.Log.{Mark, IsWithin};

    ghost Value = { Mark };

    ghost view = { λ l. record { file = l.file; generation = l.generation; snapshot_length = l.snapshot_length; place = l.place; file_length = l.file_length; limit = l.limit } };

    ghost invariant = { λ l. IsWithin l.snapshot_length l.place l.file_length };
}

impl GateLog {
    pub(crate) fn at(
        file: usize,
        generation: u64,
        snapshot_length: u64,
        place: u64,
        file_length: u64,
        limit: u64,
    ) -> GateLog
        requires { IsWithin snapshot_length place file_length }
        ensures value { result ≡ record { file = file; generation = generation; snapshot_length = snapshot_length; place = place; file_length = file_length; limit = limit } }
        ensures place { result.place ≡ place }
    {
        GateLog {
            file,
            generation,
            snapshot_length,
            place,
            file_length,
            limit,
        }
    }

    /// The number of the log's file on the host.
    pub fn file(&self) -> usize
        ensures { result ≡ self.now.file }
    {
        self.file
    }

    /// The generation that the header names.
    pub fn generation(&self) -> u64
        ensures { result ≡ self.now.generation }
    {
        self.generation
    }

    /// The length of the snapshot in bytes.
    pub fn snapshot_length(&self) -> u64
        ensures { result ≡ self.now.snapshot_length }
    {
        self.snapshot_length
    }

    /// The place at which the next record to be read or written begins. It lies behind the snapshot.
    pub fn place(&self) -> u64
        ensures value { result ≡ self.now.place }
        ensures behind { 26 + self.now.snapshot_length ≤ result }
    {
        self.place
    }

    /// The length above which no record is added.
    pub fn limit(&self) -> u64
        ensures { result ≡ self.now.limit }
    {
        self.limit
    }

    /// Reads the snapshot.
    ///
    /// `Failed`: a call on the host failed. `Corrupt`: the host gave fewer bytes than it had told, at byte 18.
    pub fn snapshot<H: Host>(&self, alloc: Global, host: &mut H) -> Result<Vec<u8>, LogFault>
        requires file { IsOpen (H.desk host.old) self.now.file }
        requires describes { IsTrue H.tells → Describes self.now ((H.desk host.old).seen self.now.file) }
        ensures opened { (H.desk host.new).opened ≡ (H.desk host.old).opened }
        ensures counts { KeepsCounts (H.desk host.old) (H.desk host.new) }
        ensures disk { IsTrue H.tells → Stays (H.desk host.old) (H.desk host.new) }

        ensures whole { IfOk result (λ bytes. length bytes.items ≡ self.now.snapshot_length) }
        ensures bytes { IsTrue H.tells → IfOk result (λ bytes. bytes.items ≡ snapshot_in self.now ((H.desk host.old).seen self.now.file)) }

        ensures fault { IfErr result (SnapshotFault H.tells (H.desk host.old) (H.desk host.new)) }
    {
        read_snapshot(alloc, host, self.file, self.snapshot_length)
    }

    /// Reads the next body into the vector, in place of what it holds, and goes on behind it. False at the log's end.
    ///
    /// `Corrupt`: the record at the log's place isn't whole with the next gate, or its length is 0. `Failed`: a call on
    /// the host failed. At an error the log is as it was, and nothing is said of the vector.
    pub fn next_body<H: Host>(&mut self, host: &mut H, into: &mut Vec<u8>) -> Result<bool, LogFault>
        requires file { IsOpen (H.desk host.old) self.old.file }
        requires describes { IsTrue H.tells → Describes self.old ((H.desk host.old).seen self.old.file) }
        ensures opened { (H.desk host.new).opened ≡ (H.desk host.old).opened }
        ensures counts { KeepsCounts (H.desk host.old) (H.desk host.new) }
        ensures disk { IsTrue H.tells → Stays (H.desk host.old) (H.desk host.new) }

        // Of the log nothing but its place changes, and this grows, whatever the host tells.
        ensures moved { self.new ≡ record self.old { place = self.new.place } }
        ensures goes_on { IfOk result (λ more. IsTrue more → GoesOn self.old self.new) }

        ensures more { IsTrue H.tells → IfOk result (λ more. IsTrue more → HasNext ((H.desk host.old).seen self.old.file) self.old self.new into.new.items) }
        ensures ended { IsTrue H.tells → IfOk result (λ more. IsFalse more → HasEnded ((H.desk host.old).seen self.old.file) self.old) }
        ensures ended_stays { IfOk result (λ more. IsFalse more → self.new ≡ self.old) }

        ensures fault { IfErr result (NextFault H.tells ((H.desk host.old).seen self.old.file) self.old (H.desk host.old) (H.desk host.new)) }
        ensures fault_stays { IsErr result → self.new ≡ self.old }
    {
        match read_head(host, self.file, self.place, self.file_length)? {
            Head::Missing => Err(LogFault::Corrupt {
                at: missing_at(self.place, self.snapshot_length),
            }),
            Head::Closed => Ok(false),
            Head::Torn => Err(LogFault::Corrupt { at: self.place }),
            Head::Body(size) => {
                if !read_body(host, self.file, self.place, size, into)? {
                    return Err(LogFault::Corrupt { at: self.place });
                }
                self.place += 5 + size;
                Ok(true)
            }
        }
    }

    /// Adds a record to a log that was read to its end. It takes no memory.
    ///
    /// At `Ok` the record is on the disk: whatever a stop leaves from then on has it.
    /// `Full`: with the record the file would be longer than the limit; the length is that of the log without it, and
    /// nothing was written. `Failed`: a call on the host failed, and the record is there or isn't. No other error is
    /// answered. At an error the log is to be opened again.
    pub fn append<H: Host>(self, host: &mut H, frame: &Frame) -> Result<GateLog, LogFault>
        requires file { IsOpen (H.desk host.old) self.file }
        requires describes { IsTrue H.tells → Describes self ((H.desk host.old).seen self.file) }
        requires ended { IsTrue H.tells → EndsAt ((H.desk host.old).seen self.file) self.place }
        requires settled { IsTrue H.tells → IsSettled (H.desk host.old) self.file }
        ensures opened { (H.desk host.new).opened ≡ (H.desk host.old).opened }
        ensures counts { KeepsCounts (H.desk host.old) (H.desk host.new) }

        // A stop at any moment of the call leaves the bodies from before it, with the new one or without.
        ensures any_moment { IsTrue H.tells → Touches self.file (IsWithOrWithout (says ((H.desk host.old).seen self.file)) frame.now) (H.desk host.old) (H.desk host.new) }

        ensures log { IfOk result (λ log. log ≡ grown self (length frame.now)) }
        ensures added { IsTrue H.tells → OnOk result (says ((H.desk host.new).seen self.file) ≡ with_body (says ((H.desk host.old).seen self.file)) frame.now) }

        // No byte is another than the record says.
        ensures bytes { IsTrue H.tells → OnOk result ((H.desk host.new).seen self.file ≡ with_record_at self.place frame.now ((H.desk host.old).seen self.file)) }

        // The log can be appended to again.
        ensures describes { IsTrue H.tells → IfOk result (λ log. Describes log ((H.desk host.new).seen self.file)) }
        ensures ended { IsTrue H.tells → IfOk result (λ log. EndsAt ((H.desk host.new).seen self.file) log.place) }
        ensures settled { IsTrue H.tells → OnOk result (IsSettled (H.desk host.new) self.file) }

        ensures fault { IfErr result (AppendFault self (length frame.now) (H.desk host.old) (H.desk host.new)) }
        ensures full { self.limit < self.place + 6 + length frame.now → IsErrOf result (LogFault.Full (self.place + 1)) }
        ensures full_leaves { IsErrOf result (LogFault.Full (self.place + 1)) → host.new ≡ host.old }
    {
        let GateLog {
            file,
            generation,
            snapshot_length,
            place,
            file_length,
            limit,
        } = self;
        let length = place + 1;
        let size = frame.size();
        if exceeds(length, size, limit) {
            return Err(LogFault::Full { length });
        }
        put_record(host, file, place, frame)?;
        Ok(GateLog::at(
            file,
            generation,
            snapshot_length,
            place + size,
            file_length.max(length + size),
            limit,
        ))
    }
}

// Where a file is corrupt that ends at a gate's place: for the first gate that is told with the snapshot's length.
fn missing_at(place: u64, snapshot_length: u64) -> u64
    requires { 26 + snapshot_length ≤ place }
    ensures { (result ≡ place) ⊎ (result ≡ 18) }
{
    if place == 26 + snapshot_length {
        18
    } else {
        place
    }
}

// Whether so many bytes more are above the limit.
fn exceeds(length: u64, size: u64, limit: u64) -> bool
    ensures { IsTrue result ↔ (limit < length + size) }
{
    length > limit || size > limit - length
}

// Adds a record at the closed gate of a log: all of it but its gate first, and then the gate alone.
fn put_record<H: Host>(host: &mut H, file: usize, place: u64, frame: &Frame) -> Result<(), Failed>
    requires file { IsOpen (H.desk host.old) file }
    requires small { place < 18446744073709551615 }
    requires ended { IsTrue H.tells → EndsAt ((H.desk host.old).seen file) place }
    requires settled { IsTrue H.tells → IsSettled (H.desk host.old) file }
    ensures opened { (H.desk host.new).opened ≡ (H.desk host.old).opened }
    ensures counts { KeepsCounts (H.desk host.old) (H.desk host.new) }
    ensures cause { IsErr result → Rose (H.desk host.old).store_faults (H.desk host.new).store_faults }
    ensures any_moment { IsTrue H.tells → Touches file (IsWithOrWithout (says ((H.desk host.old).seen file)) frame.now) (H.desk host.old) (H.desk host.new) }
    ensures added { IsTrue H.tells → OnOk result (HasRecord ((H.desk host.old).seen file) place frame.now ((H.desk host.new).seen file)) }
    ensures settled { IsTrue H.tells → OnOk result (IsSettled (H.desk host.new) file) }
{
    write_through(host, file, place + 1, frame.bytes())?;
    write_through(host, file, place, &[1])
}
