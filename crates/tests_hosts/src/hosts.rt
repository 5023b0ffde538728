// What the host and the source in memory do, on values worked out by hand. A test has no host among its locals: each
// place where it may end would have to be proved to give the host's memory back.
use crate::fixtures::host_with;
use host_desk::{Failed, Host, MemHost, MemSource, Pick, Source};
use std::alloc::Global;
use std::test::Fail;

const ABCD: &[u8] = b"abcd";

// Whether a stop within the call leaves these bytes in file 0.
fn leaves(host: &MemHost, call: u64, pick: Pick, bytes: &[u8]) -> Result<bool, Fail> {
    if call >= host.calls() {
        return Ok(false);
    }
    let image = host.image(call, pick)?;
    let is = image.file(0) == bytes;
    drop(image);
    Ok(is)
}

// Call 1 writes behind the first two bytes, and call 2 syncs.
fn written_and_synced(alloc: Global) -> Result<MemHost, Fail> {
    let mut host = host_with(alloc, ABCD)?;
    host.write_at(0, 2, b"XYZ")?;
    host.sync(0)?;
    Ok(host)
}

fn write_is_seen(alloc: Global) -> Result<bool, Fail> {
    let host = written_and_synced(alloc)?;
    let is = host.bytes(0) == b"abXYZ".as_slice() && host.calls() == 3;
    drop(host);
    Ok(is)
}

fn write_leaves(alloc: Global, call: u64, pick: Pick, bytes: &[u8]) -> Result<bool, Fail> {
    let host = written_and_synced(alloc)?;
    let is = leaves(&host, call, pick, bytes);
    drop(host);
    is
}

#[test]
fn a_write_is_torn_until_the_sync(rt: HostRuntime) -> Result<(), Fail> {
    assert!(rt; write_is_seen(rt.alloc())?);
    for (call, pick, left) in [
        (0, Pick::Fill(b'-'), ABCD),
        (1, Pick::Before, ABCD),
        (1, Pick::After, b"abXYZ"),
        (1, Pick::Fill(b'-'), b"ab---"),
        (2, Pick::Before, ABCD),
        (2, Pick::After, b"abXYZ"),
        (2, Pick::Fill(b'-'), b"ab---"),
    ] {
        assert!(rt;
            write_leaves(rt.alloc(), call, pick, left)?,
            "call {call}, {pick:?}"
        );
    }
    Ok(())
}

// The length of file 0, what a read from its place 1 on fills, and how many calls that makes.
fn length_and_rest(alloc: Global) -> Result<(u64, usize, [u8; 4], u64), Fail> {
    let mut host = host_with(alloc, ABCD)?;
    let length = host.length(0)?;
    let mut piece = *b"....";
    let count = host.read_at(0, 1, &mut piece)?;
    Ok((length, count, piece, host.calls()))
}

#[test]
fn a_file_has_a_length_and_is_read_to_its_end(rt: HostRuntime) -> Result<(), Fail> {
    assert!(rt; length_and_rest(rt.alloc())? == (4, 3, *b"bcd.", 3));
    Ok(())
}

// Call 1 cuts the file to its first byte.
fn cut_to_one(alloc: Global) -> Result<MemHost, Fail> {
    let mut host = host_with(alloc, ABCD)?;
    if host.bytes(0).len() == 4 {
        host.cut(0, 1)?;
    }
    Ok(host)
}

fn cut_is_seen(alloc: Global) -> Result<bool, Fail> {
    let host = cut_to_one(alloc)?;
    let is = host.bytes(0) == b"a".as_slice() && host.calls() == 2;
    drop(host);
    Ok(is)
}

fn cut_leaves(alloc: Global, pick: Pick, bytes: &[u8]) -> Result<bool, Fail> {
    let host = cut_to_one(alloc)?;
    let is = leaves(&host, 1, pick, bytes);
    drop(host);
    is
}

#[test]
fn a_cut_may_leave_the_old_length(rt: HostRuntime) -> Result<(), Fail> {
    assert!(rt; cut_is_seen(rt.alloc())?);
    for (pick, left) in [
        (Pick::Before, ABCD),
        (Pick::After, b"a"),
        (Pick::Fill(0), b"a\0\0\0"),
    ] {
        assert!(rt; cut_leaves(rt.alloc(), pick, left)?, "{pick:?}");
    }
    Ok(())
}

// Whether call 1, a write that fails, changes nothing that is seen, and a stop leaves these bytes.
fn failed_write_leaves(alloc: Global, pick: Pick, bytes: &[u8]) -> Result<bool, Fail> {
    let mut host = host_with(alloc, ABCD)?;
    host.fail(1)?;
    let is_failed = host.write_at(0, 0, b"XY") == Err(Failed);
    Ok(is_failed && host.bytes(0) == ABCD && leaves(&host, 1, pick, bytes)?)
}

#[test]
fn a_write_that_fails_may_be_torn(rt: HostRuntime) -> Result<(), Fail> {
    for (pick, left) in [(Pick::After, ABCD), (Pick::Fill(b'-'), b"--cd")] {
        assert!(rt; failed_write_leaves(rt.alloc(), pick, left)?, "{pick:?}");
    }
    Ok(())
}

// The answers to three calls where call 1 and all from 3 on are to fail, how many were cut short, and how many calls
// were made.
fn with_failing_calls(alloc: Global) -> Result<([Result<usize, Failed>; 3], u64, u64), Fail> {
    let mut host = host_with(alloc, b"")?;
    host.fail(1)?;
    host.fail_from(3);
    let answers = [host.say(b"ok"), host.say(b"ok"), host.say(b"ok")];
    let (short, calls) = (host.short(), host.calls());
    drop(host);
    Ok((answers, short, calls))
}

#[test]
fn named_calls_fail(rt: HostRuntime) -> Result<(), Fail> {
    let (answers, short, calls) = with_failing_calls(rt.alloc())?;
    assert!(rt; answers == [Err(Failed), Ok(2), Err(Failed)]);
    assert!(rt; (short, calls) == (0, 4));
    Ok(())
}

// Call 1 says three bytes of five, and call 2 none.
fn half_said(alloc: Global) -> Result<(MemHost, [Result<usize, Failed>; 2]), Fail> {
    let mut host = host_with(alloc, b"")?;
    host.take_at_most(3);
    let first = host.say(b"hello");
    host.take_at_most(0);
    let second = host.say(b"hello");
    Ok((host, [first, second]))
}

fn half_is_said(alloc: Global) -> Result<bool, Fail> {
    let (host, answers) = half_said(alloc)?;
    let is = answers == [Ok(3), Ok(0)] && host.said() == b"hel".as_slice() && host.calls() == 3;
    drop(host);
    Ok(is)
}

// How many bytes a stop within the call leaves as said, where there was such a call.
fn said_at(alloc: Global, call: u64, pick: Pick) -> Result<Option<u64>, Fail> {
    let (host, _) = half_said(alloc)?;
    if call >= host.calls() {
        return Ok(None);
    }
    Ok(Some(host.image(call, pick)?.said()))
}

#[test]
fn a_say_takes_no_more_than_it_may(rt: HostRuntime) -> Result<(), Fail> {
    assert!(rt; half_is_said(rt.alloc())?);
    for (call, pick, said) in [
        (1, Pick::Before, 0),
        (1, Pick::After, 3),
        (2, Pick::Fill(0), 3),
    ] {
        assert!(rt;
            said_at(rt.alloc(), call, pick)? == Some(said),
            "call {call}, {pick:?}"
        );
    }
    Ok(())
}

#[test]
fn a_source_gives_its_bytes_in_pieces(rt: HostRuntime) -> Result<(), Fail> {
    let mut source = MemSource::new(rt.alloc(), b"abc".to_vec(rt.alloc())?, 2);
    source.fail(1)?;
    let mut piece = *b"....";
    for (answer, read) in [
        (Ok(2), b"ab.."),
        (Err(Failed), b"ab.."),
        (Ok(1), b"cb.."),
        (Ok(0), b"cb.."),
    ] {
        assert!(rt;
            source.read(&mut piece) == answer && piece == *read,
            "{answer:?}"
        );
    }
    Ok(())
}
