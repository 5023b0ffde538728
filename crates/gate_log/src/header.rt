// What the header of a file says.
ghost use Rattle.std.specs.Prelude.{◌≡◌, ◌+◌, ◌≤◌, length, min, IsTrue, IfOk, IsErr};
ghost use Rattle.gate_log.specs.Format.{opening, opening_of, has_magic};
ghost use Rattle.gate_log.specs.Header.{opening_in, HeaderFits};
ghost use Rattle.host_desk.specs.Desk.{IsOpen, Rose, KeepsCounts, Stays};

use crate::numbers::u64_at;
use crate::reading::read_full;
use host_desk::{Failed, Host};

// What a header may say.
#[derive(Clone, Copy)]
pub enum Header {
    // there is no log
    Absent,
    // it is wrong at this byte
    Corrupt(u64),
    // there is a log whose snapshot has this length
    Opened {
        generation: u64,
        snapshot_length: u64,
    },
}

// What the first bytes say, at most 26 of them, of a file of this length.
pub fn header_of(head: &[u8], size: u64) -> Header
    ensures fits { HeaderFits size result }
    ensures says { length head.now ≡ min 26 size → opening_in result ≡ opening head.now size }
{
    if size <= 1 || head.is_empty() || head[0] == 0 {
        return Header::Absent;
    }
    let named = is_named(head);
    if head[0] != 1 {
        return if named {
            Header::Absent
        } else {
            Header::Corrupt(0)
        };
    }
    if !named {
        return Header::Corrupt(1);
    }
    if head.len() < 10 || head[9] != 1 {
        return Header::Corrupt(9);
    }
    if head.len() < 26 || size < 26 {
        return Header::Corrupt(18);
    }
    let generation = u64_at(head, 10);
    let snapshot_length = u64_at(head, 18);
    if size - 26 <= snapshot_length {
        return Header::Corrupt(18);
    }
    Header::Opened {
        generation,
        snapshot_length,
    }
}

// Whether the name stands behind the gate.
fn is_named(head: &[u8]) -> bool
    ensures { result ≡ has_magic head.now }
{
    head.len() >= 9 && head[1..9] == b"OVERLORD"[..]
}

// Reads the header of a file of this length. Where the file ends before, the file is what there is.
pub fn read_header<H: Host>(host: &mut H, file: usize, size: u64) -> Result<Header, Failed>
    requires file { IsOpen (H.desk host.old) file }
    requires size { IsTrue H.tells → size ≡ length ((H.desk host.old).seen file) }
    ensures opened { (H.desk host.new).opened ≡ (H.desk host.old).opened }
    ensures counts { KeepsCounts (H.desk host.old) (H.desk host.new) }
    ensures cause { IsErr result → Rose (H.desk host.old).store_faults (H.desk host.new).store_faults }
    ensures disk { IsTrue H.tells → Stays (H.desk host.old) (H.desk host.new) }
    ensures fits { IfOk result (HeaderFits size) }
    ensures says { IsTrue H.tells → IfOk result (λ header. opening_in header ≡ opening_of ((H.desk host.old).seen file)) }
{
    let mut head = [0; 26];
    let count = read_full(host, file, 0, &mut head)?;
    Ok(header_of(&head[..count], shorter(size, count)))
}

// The length of a file of which no more than this many of its first 26 bytes are there.
fn shorter(size: u64, count: usize) -> u64
    ensures within { result ≤ size }
    ensures same { count ≡ min 26 size → result ≡ size }
{
    if count < 26 {
        size.min(count as u64)
    } else {
        size
    }
}
