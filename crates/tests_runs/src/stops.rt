// What a stop of the machine leaves of a run.
ghost use Rattle.std.specs.Prelude.{◌≡◌, ℕ, None};
ghost use Rattle.host_desk.specs.MemHost.{desk_now};

use crate::fixtures::{ONE, RESET, host_with, run_lines, two_resets};
use host_desk::{Image, MemHost, Pick};
use overlord_run::Status;
use std::alloc::Global;
use std::test::Fail;

const PICKS: [Pick; 6] = [
    Pick::Before,
    Pick::After,
    Pick::Fill(0),
    Pick::Fill(1),
    Pick::Fill(2),
    Pick::Fill(255),
];

// How many lines these bytes end.
fn lines_in(bytes: &[u8]) -> usize {
    bytes.iter().filter(|b| **b == b'\n').count()
}

// Whole replies, or parts of them.
fn replies_in(bytes: &[u8]) -> usize {
    if bytes.last() == Some(&b'\n') {
        lines_in(bytes)
    } else if bytes.is_empty() {
        0
    } else {
        lines_in(bytes).saturating_add(1)
    }
}

// The replies of which a byte was out at the stop.
fn replies_out(host: &MemHost, image: &Image) -> usize {
    let said = host.said();
    let count = (image.said() as usize).min(said.len());
    replies_in(&said[..count])
}

// What a reset is answered behind none, one and two.
const REPLIES: [&[u8]; 3] = [
    b"{\"commit\":0,\"ok\":\"reset\"}\n",
    b"{\"commit\":1,\"ok\":\"reset\"}\n",
    b"{\"commit\":2,\"ok\":\"reset\"}\n",
];

// How many commits the store has, or none where it doesn't open.
fn commits_in(alloc: Global, left: &mut MemHost) -> Result<Option<usize>, Fail>
    requires { (pair : ℕ) → (desk_now left.old).opened pair ≡ None }
{
    if run_lines(alloc, left, RESET)? != Status::Done {
        return Ok(None);
    }
    let said = left.said();
    Ok(REPLIES.iter().position(|reply| said == *reply))
}

// How many the store has that a stop left. A host is given back by name, and lives over no other end of a function: each
// would have to be proved.
fn commits_left(alloc: Global, image: &Image) -> Result<Option<usize>, Fail> {
    let mut left = host_with(alloc, image.file(0), image.file(1))?;
    let commits = commits_in(alloc, &mut left);
    drop(left);
    commits
}

// Whether a stop leaves a store that opens, with the commits that were there and those whose replies are out.
fn keeps_replies(alloc: Global, host: &MemHost, there: usize, image: &Image) -> Result<bool, Fail> {
    let wanted = replies_out(host, image).saturating_add(there);
    Ok(commits_left(alloc, image)?.is_some_and(|commits| wanted <= commits))
}

// Whether a stop within this call does.
fn stop_keeps_replies(
    alloc: Global,
    host: &MemHost,
    there: usize,
    call: u64,
    pick: Pick,
) -> Result<bool, Fail> {
    if call >= host.calls() {
        return Ok(false);
    }
    let image = host.image(call, pick)?;
    let keeps = keeps_replies(alloc, host, there, &image);
    drop(image);
    keeps
}

// Whether a run of these lines ends well, and every stop within a call of it keeps the replies.
fn run_and_stop(alloc: Global, host: &mut MemHost, there: usize, lines: &[u8]) -> Result<bool, Fail>
    requires { (pair : ℕ) → (desk_now host.old).opened pair ≡ None }
{
    if run_lines(alloc, host, lines)? != Status::Done {
        return Ok(false);
    }
    for call in 0..host.calls() {
        for pick in PICKS {
            if !stop_keeps_replies(alloc, host, there, call, pick)? {
                return Ok(false);
            }
        }
    }
    Ok(true)
}

fn stops_keep_replies(
    alloc: Global,
    first: &[u8],
    there: usize,
    lines: &[u8],
) -> Result<bool, Fail> {
    let mut host = host_with(alloc, first, b"")?;
    let keeps = run_and_stop(alloc, &mut host, there, lines);
    drop(host);
    keeps
}

// on a new store, and on one with a record
#[test]
fn every_stop_leaves_the_lines_with_replies(rt: HostRuntime) -> Result<(), Fail> {
    let two = two_resets(rt.alloc())?;
    assert!(rt; stops_keep_replies(rt.alloc(), b"", 0, &two)?);
    assert!(rt; stops_keep_replies(rt.alloc(), ONE, 1, RESET)?);
    Ok(())
}

// A task asks for an id in an hour of the day that another one has locked to replace it.
const BEGUN: &[u8] =
    b"{\"do\":\"submit\",\"task\":\"p\",\"source\":\"w\",\"kind\":\"realtime\"}\n{\"do\":\"submit\",\"task\":\"r\",\"source\":\"w\",\"kind\":\"batch\"}\n{\"do\":\"manage\",\"now\":\"2024-04-01\"}\n{\"do\":\"allocate\",\"task\":\"p\",\"type\":\"APPEND\",\"sequence\":\"s\",\"at\":\"2024-03-01T05:10\",\"granularity\":\"HOUR\",\"now\":\"2024-04-01\"}\n{\"do\":\"lock\",\"task\":\"r\",\"type\":\"REPLACE\",\"span\":\"2024-03-01/2024-03-02\",\"now\":\"2024-04-01\"}\n";

const REPLACE: &[u8] =
    b"{\"do\":\"replace\",\"task\":\"r\",\"spans\":[\"2024-03-01/2024-03-02\"],\"ids\":[\"w_2024-03-01T00:00:00.000Z_2024-03-02T00:00:00.000Z_2024-04-01T00:00:00.000Z\"]}\n";

// Whether every stop within a replacement, which copies that id, leaves the store without it or with the whole of it, and with it where its reply is out.
fn replace_and_stop(alloc: Global, host: &mut MemHost) -> Result<bool, Fail>
    requires { (pair : ℕ) → (desk_now host.old).opened pair ≡ None }
{
    if run_lines(alloc, host, BEGUN)? != Status::Done {
        return Ok(false);
    }
    stops_keep_replies(alloc, host.bytes(0), 0, REPLACE)
}

fn stops_keep_replacement(alloc: Global) -> Result<bool, Fail> {
    let mut host = host_with(alloc, b"", b"")?;
    let keeps = replace_and_stop(alloc, &mut host);
    drop(host);
    keeps
}

#[test]
fn every_stop_leaves_a_replacement_whole_or_not_at_all(rt: HostRuntime) -> Result<(), Fail> {
    assert!(rt; stops_keep_replacement(rt.alloc())?);
    Ok(())
}
