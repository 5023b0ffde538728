//! The bytes in hand.
ghost use Rattle.std.specs.Prelude.{◌≡◌, ◌<◌, ◌≤◌, ◌+◌, ◌-◌, ◌++◌, ◌⊎◌, [], ◌∷◌, take, drop, length, true, false, if◌then◌else◌, IsTrue, IfOk, OnOk, IsErr, IsErrOf, position, ◌==◌};
ghost use Rattle.host_desk.specs.Desk.{Rose};
ghost use Rattle.input_lines.specs.Lines.{IsWithin, line_limit};
ghost use Rattle.input_lines.specs.Reading.{Finds, IsCut, Loses, unread, work_left};
ghost use Rattle.input_lines.specs.Buffers.{found_by, last_by, reading_of, IsBuffer, IsPart, AddsPart, Takes};

use crate::found::{Found, ReadFault};
use host_desk::{OutOfMemory, Source};

/// The most bytes of a line, without its byte 10. The definitions cite it.
pub const LINE_LIMIT: u64 = 1_048_576;

// How many bytes are read at a time.
const PIECE: u64 = 65_536;

/// The bytes that were read last, those of them that aren't taken yet, and how many were read in all.
#[derive(Drop)]
pub struct Buffer {
    pub bytes: Vec<u8>,
    // the first byte that isn't taken
    pub start: usize,
    pub taken: u64,
    pub limit: u64,
    pub is_ended: bool,
}

/// The front of some bytes, as far as the line goes.
#[derive(Clone, Copy)]
pub struct Part {
    pub size: usize,
    // whether byte 10 follows
    pub is_ended: bool,
}

/// What was taken of the bytes in hand.
#[derive(Clone, Copy)]
pub struct Taken {
    // the first byte that isn't taken
    pub next: usize,
    // whether byte 10 was met
    pub is_ended: bool,
    // the bytes of the line so far
    pub size: u64,
}

fn end_of_line(bytes: &[u8]) -> Option<usize>
    ensures { result ≡ position (λ b. b == 10) bytes.now }
{
    bytes.iter().position(|b| *b == 10)
}

fn part_of(bytes: &[u8]) -> Part
    ensures { IsPart bytes.now result }
{
    match end_of_line(bytes) {
        Some(size) => Part {
            size,
            is_ended: true,
        },
        None => Part {
            size: bytes.len(),
            is_ended: false,
        },
    }
}

// Adds a part to a line of so many bytes, and answers how many it has now. Above the limit of a line none is kept.
fn add_part(line: &mut Vec<u8>, size: u64, part: &[u8]) -> Result<u64, OutOfMemory>
    requires { size + length part.now ≤ 18446744073709551615 }
    ensures { IfOk result (AddsPart line.old.items line.new.items size part.now) }
{
    let size = size + part.len() as u64;
    if size <= LINE_LIMIT {
        line.extend_from_slice(part)?;
    }
    Ok(size)
}

fn take_part(
    bytes: &[u8],
    start: usize,
    line: &mut Vec<u8>,
    size: u64,
) -> Result<Taken, OutOfMemory>
    requires start { start ≤ length bytes.now }
    requires size { size + (length bytes.now - start) ≤ 18446744073709551615 }
    ensures next { IfOk result (λ taken. (start ≤ taken.next) × (taken.next ≤ length bytes.now)) }
    ensures takes { IfOk result (λ taken. Takes (drop start bytes.now) (drop taken.next bytes.now) size line.old.items line.new.items taken.is_ended taken.size) }
{
    let rest = &bytes[start..];
    let part = part_of(rest);
    let size = add_part(line, size, &rest[..part.size])?;
    let next = if part.is_ended {
        start + part.size + 1
    } else {
        start + part.size
    };
    Ok(Taken {
        next,
        is_ended: part.is_ended,
        size,
    })
}

// Reads a piece of at most so many bytes in the place of the bytes in hand, and answers how many came: 0 at the end.
fn read_piece<S: Source>(source: &mut S, bytes: &mut Vec<u8>, most: u64) -> Result<usize, ReadFault>
    requires { 0 < most }
    ensures counts { S.faults source.old ≤ S.faults source.new }
    ensures failed { IsErrOf result ReadFault.Failed → Rose (S.faults source.old) (S.faults source.new) }
    ensures not_long { IsErrOf result ReadFault.TooLong → ⊥ }
    ensures count { IfOk result (λ n. (n ≡ length bytes.new.items) × (n ≤ most)) }
    ensures read { IsTrue S.tells → IfOk result (λ n. (S.remaining source.old ≡ bytes.new.items ++ S.remaining source.new) × (n ≡ 0 → S.remaining source.old ≡ [])) }
    ensures kept { IsTrue S.tells → IsErr result → S.remaining source.new ≡ S.remaining source.old }
{
    let size = most.min(PIECE) as usize;
    bytes.clear();
    bytes.resize(size, 0)?;
    let count = source.read(bytes)?;
    bytes.truncate(count);
    Ok(count)
}

// Brings the next piece where none is in hand. False at the end.
fn refill<S: Source>(source: &mut S, buffer: &mut Buffer) -> Result<bool, ReadFault>
    requires buffer { IsBuffer buffer.old }
    requires empty { buffer.old.start ≡ length buffer.old.bytes.items }
    requires ended { IsTrue S.tells → buffer.old.is_ended ≡ true → S.remaining source.old ≡ [] }
    ensures counts { S.faults source.old ≤ S.faults source.new }
    ensures failed { IsErrOf result ReadFault.Failed → Rose (S.faults source.old) (S.faults source.new) }
    ensures too_long { IsErrOf result ReadFault.TooLong → buffer.new.taken ≡ buffer.new.limit }
    ensures buffer { IsBuffer buffer.new }
    ensures limit { buffer.new.limit ≡ buffer.old.limit }
    ensures taken { IsTrue S.tells → OnOk result (buffer.new.taken + length (S.remaining source.new) ≡ buffer.old.taken + length (S.remaining source.old)) }
    ensures came { IfOk result (λ more. more ≡ true → buffer.new.taken ≡ buffer.old.taken + (length buffer.new.bytes.items - buffer.new.start)) }
    ensures same { IsTrue S.tells → IsErr result → (S.remaining source.new ≡ S.remaining source.old) × (buffer.new.taken ≡ buffer.old.taken) }
    ensures more { IsTrue S.tells → IfOk result (λ more. S.remaining source.old ≡ drop buffer.new.start buffer.new.bytes.items ++ S.remaining source.new) }
    ensures none { IfOk result (λ more. more ≡ false → (buffer.new.is_ended ≡ true) × (buffer.new.start ≡ length buffer.new.bytes.items) × (IsTrue S.tells → S.remaining source.old ≡ [])) }
    ensures ended { IsTrue S.tells → OnOk result (buffer.new.is_ended ≡ true → S.remaining source.new ≡ []) }
    ensures unended { IsErrOf result ReadFault.Failed ⊎ IsErrOf result ReadFault.TooLong → buffer.old.is_ended ≡ false }
    ensures still { IfOk result (λ more. more ≡ true → buffer.new.is_ended ≡ buffer.old.is_ended) }
    ensures nearer { IfOk result (λ more. work_left (reading_of buffer.new) + (if more then 1 else 0) ≤ work_left (reading_of buffer.old)) }
{
    if buffer.is_ended {
        return Ok(false);
    }
    if buffer.taken == buffer.limit {
        return Err(ReadFault::TooLong);
    }
    buffer.start = 0;
    match read_piece(source, &mut buffer.bytes, buffer.limit - buffer.taken) {
        Ok(count) => {
            buffer.taken += count as u64;
            buffer.is_ended = count == 0;
            Ok(count > 0)
        }
        Err(fault) => {
            buffer.bytes.clear();
            Err(fault)
        }
    }
}

fn whole(size: u64) -> Found
    ensures { result ≡ found_by size }
{
    if size > LINE_LIMIT {
        Found::LongLine { size }
    } else {
        Found::Line
    }
}

fn last(size: u64) -> Found
    ensures { result ≡ last_by size }
{
    if size == 0 { Found::End } else { whole(size) }
}

/// Looks for the end of the line at the front of what is unread.
pub fn find_line<S: Source>(
    source: &mut S,
    buffer: &mut Buffer,
    line: &mut Vec<u8>,
) -> Result<Found, ReadFault>
    requires buffer { IsBuffer buffer.old }
    requires ended { IsTrue S.tells → buffer.old.is_ended ≡ true → S.remaining source.old ≡ [] }
    ensures counts { S.faults source.old ≤ S.faults source.new }
    ensures failed { IsErrOf result ReadFault.Failed → Rose (S.faults source.old) (S.faults source.new) }
    ensures too_long { IsErrOf result ReadFault.TooLong → buffer.new.taken ≡ buffer.new.limit }
    ensures buffer { IsBuffer buffer.new }
    ensures limit { buffer.new.limit ≡ buffer.old.limit }
    ensures taken { IsTrue S.tells → buffer.new.taken + length (S.remaining source.new) ≡ buffer.old.taken + length (S.remaining source.old) }
    ensures found { let before = unread (reading_of buffer.old) (S.remaining source.old) in
        let after = unread (reading_of buffer.new) (S.remaining source.new) in
        IsTrue S.tells → IfOk result (λ found. Finds found before line.new.items after) }
    ensures short { IfOk result (λ found. found ≡ Found.Line → length line.new.items ≤ line_limit) }
    ensures ended { IsTrue S.tells → OnOk result (buffer.new.is_ended ≡ true → S.remaining source.new ≡ []) }
    ensures end { IfOk result (λ found. found ≡ Found.End → buffer.new.is_ended ≡ true) }
    ensures cut { let before = unread (reading_of buffer.old) (S.remaining source.old) in
        let after = unread (reading_of buffer.new) (S.remaining source.new) in
        IsTrue S.tells → OnOk result (buffer.new.is_ended ≡ false → (buffer.old.is_ended ≡ false) × IsCut before after) }
    ensures nearer { IfOk result (λ found. (found ≡ Found.End → ⊥) → work_left (reading_of buffer.new) < work_left (reading_of buffer.old)) }
    ensures unended { IsErrOf result ReadFault.Failed ⊎ IsErrOf result ReadFault.TooLong → buffer.old.is_ended ≡ false }
    ensures lost { IsTrue S.tells → IsErrOf result ReadFault.Failed ⊎ IsErrOf result ReadFault.TooLong → Loses (unread (reading_of buffer.old) (S.remaining source.old)) (S.remaining source.new) }
{
    line.clear();
    let mut size = 0;
    loop {
        let taken = take_part(&buffer.bytes, buffer.start, line, size)?;
        buffer.start = taken.next;
        size = taken.size;
        if taken.is_ended {
            return Ok(whole(size));
        }
        if !refill(source, buffer)? {
            return Ok(last(size));
        }
    }
}
