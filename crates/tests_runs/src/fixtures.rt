// Hosts, sources and runs that the tests begin with, on bytes worked out by hand.
ghost use Rattle.std.specs.Prelude.{◌≡◌, ℕ, IfOk, None};
ghost use Rattle.host_desk.specs.MemHost.{desk_now};

use host_desk::{MemHost, MemSource};
use overlord_run::{Status, overlord};
use std::alloc::Global;
use std::test::Fail;

pub const RESET: &[u8; 80] =
    b"{\"do\":\"reset\",\"source\":\"w\",\"stream\":\"t\",\"offsets\":[{\"partition\":0,\"offset\":5}]}\n";

// The file of a store with one record, of the reset above.
pub const ONE: &[u8; 51] =
    b"\x01OVERLORD\x01\0\0\0\0\0\0\0\x01\0\0\0\0\0\0\0\0\x01\0\0\0\x13\x0b\x01w\x01t\0\x01\0\0\0\0\0\0\0\0\0\0\0\x05\0";

// A host of a pair with these files, and two files more, none of which is opened.
pub fn host_with(alloc: Global, first: &[u8], second: &[u8]) -> Result<MemHost, Fail>
    ensures { IfOk result (λ host. (pair : ℕ) → (desk_now host).opened pair ≡ None) }
{
    let files = vec![in alloc;
        first.to_vec(alloc)?,
        second.to_vec(alloc)?,
        Vec::new(alloc),
        Vec::new(alloc),
    ]?;
    Ok(MemHost::new(alloc, files)?)
}

pub fn run_words(alloc: Global) -> Result<Vec<String>, Fail> {
    Ok(vec![in alloc;
        String::from_str(alloc, "run")?,
        String::from_str(alloc, "S")?,
    ]?)
}

pub fn source_of(alloc: Global, lines: &[u8]) -> Result<MemSource, Fail> {
    Ok(MemSource::new(alloc, lines.to_vec(alloc)?, 7))
}

// Two resets, as lines.
pub fn two_resets(alloc: Global) -> Result<Vec<u8>, Fail> {
    Ok([RESET.as_slice(), RESET.as_slice()].concat(alloc)?)
}

// The status of a run of these lines.
pub fn run_lines(alloc: Global, host: &mut MemHost, lines: &[u8]) -> Result<Status, Fail>
    requires { (pair : ℕ) → (desk_now host.old).opened pair ≡ None }
{
    let words = run_words(alloc)?;
    let mut source = source_of(alloc, lines)?;
    let status = overlord(alloc, &words, &mut source, host);
    drop(words);
    drop(source);
    Ok(status)
}
