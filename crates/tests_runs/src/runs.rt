// Runs that come to a limit, and runs of which a call fails.
ghost use Rattle.std.specs.Prelude.{◌≡◌, ℕ, None};
ghost use Rattle.host_desk.specs.MemHost.{desk_now};

use crate::fixtures::{ONE, RESET, host_with, run_lines, run_words, source_of, two_resets};
use host_desk::{MemHost, MemSource};
use overlord_run::{Limits, Status, overlord, overlord_within};
use std::alloc::Global;
use std::test::Fail;

// The status of a run of two resets within these limits.
fn run_within(alloc: Global, host: &mut MemHost, limits: Limits) -> Result<Status, Fail>
    requires { (pair : ℕ) → (desk_now host.old).opened pair ≡ None }
{
    let words = run_words(alloc)?;
    let lines = two_resets(alloc)?;
    let mut source = source_of(alloc, lines.as_slice())?;
    let status = overlord_within(alloc, &words, &mut source, host, limits);
    drop(words);
    drop(lines);
    drop(source);
    Ok(status)
}

// Whether such a run on a new store ends with this status, and leaves file 0 so long and these replies. A host is given
// back by name, and lives over no other end of a function: each would have to be proved.
fn ends_within(
    alloc: Global,
    limits: Limits,
    status: Status,
    length: usize,
    said: &[u8],
) -> Result<bool, Fail> {
    let mut host = host_with(alloc, b"", b"")?;
    let ended = run_within(alloc, &mut host, limits);
    let is_left = host.bytes(0).len() == length && host.said() == said;
    drop(host);
    Ok(ended? == status && is_left)
}

const LIMITS: Limits = Limits {
    log: 74,
    input: 1_000,
    turn: 1_000,
};

#[test]
fn runs_end_at_their_limits(rt: HostRuntime) -> Result<(), Fail> {
    let no_record = Status::StoreFull { length: 51 };
    let no_file = Status::StoreFull { length: 0 };
    for (limits, status, length, said) in [
        (
            LIMITS,
            no_record,
            51,
            b"{\"commit\":0,\"ok\":\"reset\"}\n".as_slice(),
        ),
        (Limits { log: 26, ..LIMITS }, no_file, 0, b""),
        (
            Limits {
                input: 10,
                ..LIMITS
            },
            Status::InputTooLong,
            27,
            b"",
        ),
    ] {
        assert!(rt;
            ends_within(rt.alloc(), limits, status, length, said)?,
            "{status:?}"
        );
    }
    Ok(())
}

// The status of a run whose first call fails.
fn fail_and_run(alloc: Global, host: &mut MemHost) -> Result<Status, Fail>
    requires { (pair : ℕ) → (desk_now host.old).opened pair ≡ None }
{
    host.fail(0)?;
    run_lines(alloc, host, RESET)
}

fn run_failing(alloc: Global) -> Result<Status, Fail> {
    let mut host = host_with(alloc, b"", b"")?;
    let status = fail_and_run(alloc, &mut host);
    drop(host);
    status
}

// The status of a run on a host that takes none of what is said, and whether its record is kept.
fn run_unheard(alloc: Global, host: &mut MemHost) -> Result<(Status, bool), Fail>
    requires { (pair : ℕ) → (desk_now host.old).opened pair ≡ None }
{
    host.take_at_most(0);
    let status = run_lines(alloc, host, RESET)?;
    Ok((status, host.bytes(0) == ONE.as_slice()))
}

fn run_silent(alloc: Global) -> Result<(Status, bool), Fail> {
    let mut host = host_with(alloc, b"", b"")?;
    let told = run_unheard(alloc, &mut host);
    drop(host);
    told
}

// A source whose first read fails.
fn unread_source(alloc: Global) -> Result<MemSource, Fail> {
    let mut source = source_of(alloc, RESET)?;
    source.fail(0)?;
    Ok(source)
}

// The status of a run on it.
fn run_unread_on(alloc: Global, host: &mut MemHost) -> Result<Status, Fail>
    requires { (pair : ℕ) → (desk_now host.old).opened pair ≡ None }
{
    let words = run_words(alloc)?;
    let mut source = unread_source(alloc)?;
    let status = overlord(alloc, &words, &mut source, host);
    drop(words);
    drop(source);
    Ok(status)
}

fn run_unread(alloc: Global) -> Result<Status, Fail> {
    let mut host = host_with(alloc, b"", b"")?;
    let status = run_unread_on(alloc, &mut host);
    drop(host);
    status
}

#[test]
fn each_fault_has_its_status(rt: HostRuntime) -> Result<(), Fail> {
    assert!(rt; run_failing(rt.alloc())? == Status::StoreFault);
    assert!(rt; run_silent(rt.alloc())? == (Status::OutputFault, true));
    assert!(rt; run_unread(rt.alloc())? == Status::InputFault);
    Ok(())
}
