use crate::fixtures::host_with;
use gate_log::{make_frame, make_log};
use host_desk::{Host, MemHost};
use std::alloc::Global;
use std::test::Fail;

// A host in whose file 0 a log was made that may grow to `limit` bytes.
fn host_with_log(
    alloc: Global,
    generation: u64,
    snapshot: &[u8],
    limit: u64,
) -> Result<MemHost, Fail> {
    let mut host = host_with(alloc, b"")?;
    host.sync(0)?;
    make_log(alloc, &mut host, 0, generation, snapshot, limit)?;
    Ok(host)
}

// Whether the frame of a body has these bytes.
fn reset_is_framed(alloc: Global, bytes: &[u8]) -> Result<bool, Fail> {
    let frame = make_frame(alloc, b"reset")?;
    Ok(frame.bytes() == bytes && frame.size() == bytes.len() as u64)
}

#[test]
fn a_frame_has_the_length_before_the_body_and_a_gate_behind(rt: HostRuntime) -> Result<(), Fail> {
    assert!(rt; reset_is_framed(rt.alloc(), b"\0\0\0\x05reset\0")?);
    Ok(())
}

// Whether a new log of this generation and snapshot, that may grow to its own length, has these bytes.
fn is_made(alloc: Global, generation: u64, snapshot: &[u8], bytes: &[u8]) -> Result<bool, Fail> {
    let host = host_with_log(alloc, generation, snapshot, bytes.len() as u64)?;
    Ok(host.bytes(0) == bytes)
}

#[test]
fn a_new_log_is_its_header(rt: HostRuntime) -> Result<(), Fail> {
    for (generation, snapshot, bytes) in [
        (
            1,
            b"".as_slice(),
            b"\x01OVERLORD\x01\0\0\0\0\0\0\0\x01\0\0\0\0\0\0\0\0\0".as_slice(),
        ),
        (
            258,
            b"book",
            b"\x01OVERLORD\x01\0\0\0\0\0\0\x01\x02\0\0\0\0\0\0\0\x04book\0",
        ),
    ] {
        assert!(rt;
            is_made(rt.alloc(), generation, snapshot, bytes)?,
            "{generation}"
        );
    }
    Ok(())
}
