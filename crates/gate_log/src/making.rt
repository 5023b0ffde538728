// A file is made a log: shut, filled behind its gate, and opened.
ghost use Rattle.std.specs.Prelude.{◌≡◌, ◌⊎◌, ◌<◌, ◌≤◌, ◌+◌, ◌++◌, [], ◌∷◌, take, drop, length, IfOk, OnOk, IfErr, IsErr, IsErrOf, IsTrue};
ghost use Rattle.host_desk.specs.Desk.{IsOpen, Rose, KeepsCounts, Stays};
ghost use Rattle.host_desk.specs.Since.{IsSettled, Touches};
ghost use Rattle.gate_log.specs.Format.{says, is_log, new_rest, new_file, magic, EndsAt};
ghost use Rattle.gate_log.specs.Log.{Describes, new_log};
ghost use Rattle.gate_log.specs.Faults.{MakeFault};
ghost use Rattle.gate_log.specs.Making.{CanBeMade, IsKept, IsSameOrAbsent, IsAbsent, IsAbsentOr, IsBeingMade, IsFilled, IsFilledWith, KeepsFront};

use crate::through::write_through;
use crate::{GateLog, LogFault};
use host_desk::{Failed, Host};
use std::alloc::{AllocError, Global};
use wire_fields::put_u64;

/// Makes a log without records in a settled file in which there is no log, or whose bytes 1 to 8 are `OVERLORD`.
/// All memory is taken before the first write. `append` lets the log grow to `limit` bytes.
///
/// `Full`: the new file would be longer than the limit. `OutOfMemory`: no memory was left. In both cases nothing was
/// written. `Failed`: a call on the host failed, and the file is as it was, or there is no log in it, or it is the new
/// one. No other error is answered. At an error the file is to be opened again.
pub fn make_log<H: Host>(
    alloc: Global,
    host: &mut H,
    file: usize,
    generation: u64,
    snapshot: &[u8],
    limit: u64,
) -> Result<GateLog, LogFault>
    requires file { IsOpen (H.desk host.old) file }
    requires settled { IsTrue H.tells → IsSettled (H.desk host.old) file }
    requires can { IsTrue H.tells → CanBeMade ((H.desk host.old).seen file) }
    ensures opened { (H.desk host.new).opened ≡ (H.desk host.old).opened }
    ensures counts { KeepsCounts (H.desk host.old) (H.desk host.new) }

    // A stop at any moment of the call leaves the file as it was, or absent, or the new file.
    ensures any_moment { IsTrue H.tells → Touches file (IsBeingMade ((H.desk host.old).seen file) (new_file generation snapshot.now)) (H.desk host.old) (H.desk host.new) }

    ensures log { IfOk result (λ log. log ≡ new_log file generation (length snapshot.now) limit) }
    ensures made { IsTrue H.tells → OnOk result ((H.desk host.new).seen file ≡ new_file generation snapshot.now) }
    ensures says { IsTrue H.tells → OnOk result (says ((H.desk host.new).seen file) ≡ is_log generation snapshot.now [] (26 + length snapshot.now)) }

    // The log can be appended to.
    ensures describes { IsTrue H.tells → IfOk result (λ log. Describes log ((H.desk host.new).seen file)) }
    ensures ended { IsTrue H.tells → IfOk result (λ log. EndsAt ((H.desk host.new).seen file) log.place) }
    ensures settled { IsTrue H.tells → OnOk result (IsSettled (H.desk host.new) file) }

    ensures fault { IfErr result (MakeFault (length snapshot.now) limit (H.desk host.old) (H.desk host.new)) }
    ensures full { limit < 27 + length snapshot.now → IsErrOf result (LogFault.Full 0) }
    ensures full_leaves { IsErrOf result (LogFault.Full 0) ⊎ IsErrOf result LogFault.OutOfMemory → host.new ≡ host.old }
{
    let size = snapshot.len() as u64;
    if limit < 27 || limit - 27 < size {
        return Err(LogFault::Full { length: 0 });
    }
    let rest = new_bytes(alloc, generation, snapshot)?;
    make_file(host, file, &rest)?;
    Ok(GateLog::at(file, generation, size, 26 + size, 27 + size, limit))
}

// All bytes of a new file from byte 1 on.
fn new_bytes(alloc: Global, generation: u64, snapshot: &[u8]) -> Result<Vec<u8>, AllocError>
    ensures { IfOk result (λ bytes. bytes.items ≡ new_rest generation snapshot.now) }
{
    let mut bytes = Vec::new(alloc);
    bytes.extend_from_slice(b"OVERLORD")?;
    bytes.push(1)?;
    put_u64(generation, &mut bytes)?;
    put_u64(snapshot.len() as u64, &mut bytes)?;
    bytes.extend_from_slice(snapshot)?;
    bytes.push(0)?;
    Ok(bytes)
}

// The three steps, with all bytes behind the gate.
fn make_file<H: Host>(host: &mut H, file: usize, rest: &[u8]) -> Result<(), Failed>
    requires file { IsOpen (H.desk host.old) file }
    requires settled { IsTrue H.tells → IsSettled (H.desk host.old) file }
    requires can { IsTrue H.tells → CanBeMade ((H.desk host.old).seen file) }
    requires named { take 8 rest.now ≡ magic }
    ensures opened { (H.desk host.new).opened ≡ (H.desk host.old).opened }
    ensures counts { KeepsCounts (H.desk host.old) (H.desk host.new) }
    ensures cause { IsErr result → Rose (H.desk host.old).store_faults (H.desk host.new).store_faults }
    ensures any_moment { IsTrue H.tells → Touches file (IsBeingMade ((H.desk host.old).seen file) (1 ∷ rest.now)) (H.desk host.old) (H.desk host.new) }
    ensures made { IsTrue H.tells → OnOk result ((H.desk host.new).seen file ≡ 1 ∷ rest.now) }
    ensures settled { IsTrue H.tells → OnOk result (IsSettled (H.desk host.new) file) }
{
    let kept = shut(host, file)?;
    fill_behind(host, file, kept, rest)?;
    open_gate(host, file)
}

// Shuts the gate of what stands in the file, and answers how many of its bytes are to be kept.
//
// A byte that is being written may be any until the sync. So 0 is written only where an open gate over the old file, or
// a file of at most one byte, can come of it. A gate that is neither 0 nor 1 stays as it is.
fn shut<H: Host>(host: &mut H, file: usize) -> Result<u64, Failed>
    requires file { IsOpen (H.desk host.old) file }
    requires settled { IsTrue H.tells → IsSettled (H.desk host.old) file }
    requires can { IsTrue H.tells → CanBeMade ((H.desk host.old).seen file) }
    ensures opened { (H.desk host.new).opened ≡ (H.desk host.old).opened }
    ensures counts { KeepsCounts (H.desk host.old) (H.desk host.new) }
    ensures cause { IsErr result → Rose (H.desk host.old).store_faults (H.desk host.new).store_faults }
    ensures any_moment { IsTrue H.tells → Touches file (IsSameOrAbsent ((H.desk host.old).seen file)) (H.desk host.old) (H.desk host.new) }
    ensures number { IfOk result (λ kept. (kept ≡ 1) ⊎ (kept ≡ 9)) }
    ensures kept { IsTrue H.tells → IfOk result (λ kept. IsKept kept ((H.desk host.new).seen file)) }
    ensures settled { IsTrue H.tells → OnOk result (IsSettled (H.desk host.new) file) }
{
    let kept = kept_of(host, file)?;
    if kept > 0 {
        return Ok(kept);
    }
    write_through(host, file, 0, &[0])?;
    Ok(1)
}

// How many bytes are to be kept of a file whose gate needs no shutting, or 0 for one whose gate does.
fn kept_of<H: Host>(host: &mut H, file: usize) -> Result<u64, Failed>
    requires { IsOpen (H.desk host.old) file }
    ensures opened { (H.desk host.new).opened ≡ (H.desk host.old).opened }
    ensures counts { KeepsCounts (H.desk host.old) (H.desk host.new) }
    ensures cause { IsErr result → Rose (H.desk host.old).store_faults (H.desk host.new).store_faults }
    ensures disk { IsTrue H.tells → Stays (H.desk host.old) (H.desk host.new) }
    ensures number { IfOk result (λ kept. (kept ≡ 0) ⊎ ((kept ≡ 1) ⊎ (kept ≡ 9))) }
    ensures kept { IsTrue H.tells → IfOk result (KeepsFront ((H.desk host.old).seen file)) }
{
    if host.length(file)? <= 1 {
        return Ok(0);
    }
    let mut first = [0];
    if host.read_at(file, 0, &mut first)? == 0 {
        return Ok(0);
    }
    Ok(match first[0] {
        0 => 1,
        1 => 0,
        _ => 9,
    })
}

// Fills all but what is kept. The name is part of the nine bytes.
fn fill_behind<H: Host>(host: &mut H, file: usize, kept: u64, rest: &[u8]) -> Result<(), Failed>
    requires file { IsOpen (H.desk host.old) file }
    requires number { (kept ≡ 1) ⊎ (kept ≡ 9) }
    requires settled { IsTrue H.tells → IsSettled (H.desk host.old) file }
    requires kept { IsTrue H.tells → IsKept kept ((H.desk host.old).seen file) }
    requires named { take 8 rest.now ≡ magic }
    ensures opened { (H.desk host.new).opened ≡ (H.desk host.old).opened }
    ensures counts { KeepsCounts (H.desk host.old) (H.desk host.new) }
    ensures cause { IsErr result → Rose (H.desk host.old).store_faults (H.desk host.new).store_faults }
    ensures any_moment { IsTrue H.tells → Touches file IsAbsent (H.desk host.old) (H.desk host.new) }
    ensures filled { IsTrue H.tells → OnOk result (IsFilledWith rest.now ((H.desk host.new).seen file)) }
    ensures settled { IsTrue H.tells → OnOk result (IsSettled (H.desk host.new) file) }
{
    if kept == 9 {
        fill(host, file, 9, &rest[8..])
    } else {
        fill(host, file, 1, rest)
    }
}

// Cuts off all but what is kept, and writes the rest behind it.
fn fill<H: Host>(host: &mut H, file: usize, kept: u64, rest: &[u8]) -> Result<(), Failed>
    requires file { IsOpen (H.desk host.old) file }
    requires settled { IsTrue H.tells → IsSettled (H.desk host.old) file }
    requires kept { IsTrue H.tells → IsKept kept ((H.desk host.old).seen file) }
    ensures opened { (H.desk host.new).opened ≡ (H.desk host.old).opened }
    ensures counts { KeepsCounts (H.desk host.old) (H.desk host.new) }
    ensures cause { IsErr result → Rose (H.desk host.old).store_faults (H.desk host.new).store_faults }
    ensures any_moment { IsTrue H.tells → Touches file IsAbsent (H.desk host.old) (H.desk host.new) }
    ensures filled { IsTrue H.tells → OnOk result ((H.desk host.new).seen file ≡ take kept ((H.desk host.old).seen file) ++ rest.now) }
    ensures settled { IsTrue H.tells → OnOk result (IsSettled (H.desk host.new) file) }
{
    host.cut(file, kept)?;
    host.write_at(file, kept, rest)?;
    host.sync(file)
}

// Opens the gate of a whole new file.
fn open_gate<H: Host>(host: &mut H, file: usize) -> Result<(), Failed>
    requires file { IsOpen (H.desk host.old) file }
    requires settled { IsTrue H.tells → IsSettled (H.desk host.old) file }
    requires filled { IsTrue H.tells → IsFilled ((H.desk host.old).seen file) }
    ensures opened { (H.desk host.new).opened ≡ (H.desk host.old).opened }
    ensures counts { KeepsCounts (H.desk host.old) (H.desk host.new) }
    ensures cause { IsErr result → Rose (H.desk host.old).store_faults (H.desk host.new).store_faults }
    ensures any_moment { IsTrue H.tells → Touches file (IsAbsentOr (1 ∷ drop 1 ((H.desk host.old).seen file))) (H.desk host.old) (H.desk host.new) }
    ensures made { IsTrue H.tells → OnOk result ((H.desk host.new).seen file ≡ 1 ∷ drop 1 ((H.desk host.old).seen file)) }
    ensures settled { IsTrue H.tells → OnOk result (IsSettled (H.desk host.new) file) }
{
    write_through(host, file, 0, &[1])
}
