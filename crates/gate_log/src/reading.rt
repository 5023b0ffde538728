// Reads of a log, over a host that may answer with fewer bytes than there are.
ghost use Rattle.std.specs.Prelude.{◌≡◌, ◌⊎◌, ◌<◌, ◌≤◌, ◌+◌, ◌^◌, length, take, drop, IfOk, OnOk, IfErr, IsErr, IsTrue, IsFalse};
ghost use Rattle.host_desk.specs.Desk.{IsOpen, Rose, KeepsCounts, Stays};
ghost use Rattle.gate_log.specs.Reading.{FillsAll, HeadSays, HeadFits, HasFrame, HasBody};
ghost use Rattle.gate_log.specs.Faults.{SnapshotFault, BodyFault};

use crate::LogFault;
use crate::numbers::u32_of;
use host_desk::{Failed, Host};
use std::alloc::Global;

// What stands at the head of a record.
#[derive(Clone, Copy)]
pub enum Head {
    // no gate, though the host had told of one
    Missing,
    // a gate that isn't open
    Closed,
    // an open gate, and behind it no whole record with the next gate
    Torn,
    // an open gate, and behind it a whole record with a body of this many bytes
    Body(u64),
}

// Fills the piece from a place on, as far as the file goes.
pub fn read_full<H: Host>(
    host: &mut H,
    file: usize,
    at: u64,
    into: &mut [u8],
) -> Result<usize, Failed>
    requires file { IsOpen (H.desk host.old) file }
    requires fits { at + length into.old < 2 ^ 64 }
    ensures opened { (H.desk host.new).opened ≡ (H.desk host.old).opened }
    ensures counts { KeepsCounts (H.desk host.old) (H.desk host.new) }
    ensures cause { IsErr result → Rose (H.desk host.old).store_faults (H.desk host.new).store_faults }
    ensures disk { IsTrue H.tells → Stays (H.desk host.old) (H.desk host.new) }
    ensures count { IfOk result (λ n. n ≤ length into.old) }
    ensures filled { IsTrue H.tells → IfOk result (FillsAll ((H.desk host.old).seen file) at into.old into.new) }
{
    let mut done = 0;
    while done < into.len() {
        let count = host.read_at(file, at + done as u64, &mut into[done..])?;
        if count == 0 {
            break;
        }
        done += count;
    }
    Ok(done)
}

// Reads the snapshot of a file that has so many bytes of it.
pub fn read_snapshot<H: Host>(
    alloc: Global,
    host: &mut H,
    file: usize,
    size: u64,
) -> Result<Vec<u8>, LogFault>
    requires file { IsOpen (H.desk host.old) file }
    requires there { IsTrue H.tells → 26 + size ≤ length ((H.desk host.old).seen file) }
    ensures opened { (H.desk host.new).opened ≡ (H.desk host.old).opened }
    ensures counts { KeepsCounts (H.desk host.old) (H.desk host.new) }
    ensures disk { IsTrue H.tells → Stays (H.desk host.old) (H.desk host.new) }
    ensures whole { IfOk result (λ bytes. length bytes.items ≡ size) }
    ensures bytes { IsTrue H.tells → IfOk result (λ bytes. bytes.items ≡ take size (drop 26 ((H.desk host.old).seen file))) }
    ensures fault { IfErr result (SnapshotFault H.tells (H.desk host.old) (H.desk host.new)) }
{
    let mut bytes = Vec::new(alloc);
    bytes.resize(size as usize, 0)?;
    let count = read_full(host, file, 26, &mut bytes)?;
    if count as u64 != size {
        return Err(LogFault::Corrupt { at: 18 });
    }
    Ok(bytes)
}

// Reads the gate and the length of the record at a place in a file of this length.
pub fn read_head<H: Host>(
    host: &mut H,
    file: usize,
    place: u64,
    file_length: u64,
) -> Result<Head, Failed>
    requires file { IsOpen (H.desk host.old) file }
    requires inside { place < file_length }
    requires file_length { IsTrue H.tells → file_length ≡ length ((H.desk host.old).seen file) }
    ensures opened { (H.desk host.new).opened ≡ (H.desk host.old).opened }
    ensures counts { KeepsCounts (H.desk host.old) (H.desk host.new) }
    ensures cause { IsErr result → Rose (H.desk host.old).store_faults (H.desk host.new).store_faults }
    ensures disk { IsTrue H.tells → Stays (H.desk host.old) (H.desk host.new) }
    ensures fits { IfOk result (HeadFits place file_length) }
    ensures head { IsTrue H.tells → IfOk result (HeadSays ((H.desk host.old).seen file) place) }
{
    let mut gate = [0];
    if read_full(host, file, place, &mut gate)? == 0 {
        return Ok(Head::Missing);
    }
    if gate[0] != 1 {
        return Ok(Head::Closed);
    }
    if file_length - place < 7 {
        return Ok(Head::Torn);
    }
    let mut number = [0; 4];
    let count = read_full(host, file, place + 1, &mut number)?;
    let size = u32_of(number) as u64;
    if is_whole(count, size, file_length - place - 5) {
        Ok(Head::Body(size))
    } else {
        Ok(Head::Torn)
    }
}

// Whether a length of which so many bytes were read is whole, and at least 1, and fits with the next gate into the bytes
// behind it.
fn is_whole(count: usize, size: u64, behind: u64) -> bool
    ensures yes { IsTrue result → (4 ≤ count) × (0 < size) × (size < behind) }
    ensures no { IsFalse result → (count < 4) ⊎ ((size ≡ 0) ⊎ (behind ≤ size)) }
{
    count >= 4 && size > 0 && size < behind
}

// Reads a body of so many bytes behind the gate at a place. False where the file ends before the next gate.
pub fn read_body<H: Host>(
    host: &mut H,
    file: usize,
    place: u64,
    size: u64,
    into: &mut Vec<u8>,
) -> Result<bool, LogFault>
    requires file { IsOpen (H.desk host.old) file }
    requires fits { place + 6 + size < 2 ^ 64 }
    requires frame { IsTrue H.tells → HasFrame ((H.desk host.old).seen file) place size }
    ensures opened { (H.desk host.new).opened ≡ (H.desk host.old).opened }
    ensures counts { KeepsCounts (H.desk host.old) (H.desk host.new) }
    ensures disk { IsTrue H.tells → Stays (H.desk host.old) (H.desk host.new) }
    ensures whole { IsTrue H.tells → IfOk result (λ whole. IsTrue whole) }
    ensures body { IsTrue H.tells → OnOk result (HasBody ((H.desk host.old).seen file) place size into.new.items) }
    ensures fault { IfErr result (BodyFault (H.desk host.old) (H.desk host.new)) }
{
    into.clear();
    into.resize(size as usize + 1, 0)?;
    let count = read_full(host, file, place + 5, into)?;
    into.truncate(size as usize);
    Ok(count as u64 == size + 1)
}
