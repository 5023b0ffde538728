// What two files open as, what is read of them, and what a turn leaves in them, with bytes worked out by hand.
use crate::fixtures::host_with_pair;
use std::alloc::Global;
use std::test::Fail;
use twin_store::{StoreFault, open_store};

// New logs of the generations 1 to 3, those of 2 and 3 with a snapshot of four bytes.
const FIRST: &[u8] = b"\x01OVERLORD\x01\0\0\0\0\0\0\0\x01\0\0\0\0\0\0\0\0\0";

const SECOND: &[u8] = b"\x01OVERLORD\x01\0\0\0\0\0\0\0\x02\0\0\0\0\0\0\0\x04book\0";

const THIRD: &[u8] = b"\x01OVERLORD\x01\0\0\0\0\0\0\0\x03\0\0\0\0\0\0\0\x04book\0";
// The second one without its last byte, a gate.
const CUT: &[u8] = b"\x01OVERLORD\x01\0\0\0\0\0\0\0\x02\0\0\0\0\0\0\0\x04book";

// Whether two files with these bytes open as a store in this file, of this generation.
fn opens(
    alloc: Global,
    first: &[u8],
    second: &[u8],
    file: usize,
    generation: u64,
) -> Result<bool, Fail> {
    let mut host = host_with_pair(alloc, first, second)?;
    let store = open_store(alloc, &mut host, 0, 1000)?;
    Ok(store.file() == file && store.generation() == generation)
}

#[test]
fn the_greater_generation_is_opened(rt: HostRuntime) -> Result<(), Fail> {
    for (first, second, file, generation) in [
        (b"".as_slice(), b"".as_slice(), 0, 1),
        (FIRST, b"\0OVERLORD".as_slice(), 0, 1),
        (FIRST, SECOND, 1, 2),
        (THIRD, SECOND, 0, 3),
        (b"".as_slice(), SECOND, 1, 2),
    ] {
        assert!(rt;
            opens(rt.alloc(), first, second, file, generation)?,
            "file {file}, {generation}"
        );
    }
    Ok(())
}

// Whether two files with these bytes are refused for this.
fn refuses(alloc: Global, first: &[u8], second: &[u8], fault: StoreFault) -> Result<bool, Fail> {
    let mut host = host_with_pair(alloc, first, second)?;
    Ok(match open_store(alloc, &mut host, 0, 1000) {
        Ok(_) => false,
        Err(found) => found == fault,
    })
}

#[test]
fn a_header_that_is_wrong_is_told(rt: HostRuntime) -> Result<(), Fail> {
    for (first, second, file, at) in [
        (SECOND, SECOND, 1, 10),
        (CUT, THIRD, 0, 18),
        (THIRD, CUT, 1, 18),
        (FIRST, b"hello".as_slice(), 1, 0),
    ] {
        assert!(rt;
            refuses(rt.alloc(), first, second, StoreFault::Corrupt { file, at })?,
            "file {file}, {at}"
        );
    }
    Ok(())
}

// Whether a store with these bytes, turned once, has those bytes.
fn turns(
    alloc: Global,
    first: &[u8],
    second: &[u8],
    new_first: &[u8],
    new_second: &[u8],
) -> Result<bool, Fail> {
    let mut host = host_with_pair(alloc, first, second)?;
    let store = open_store(alloc, &mut host, 0, 1000)?;
    if store.generation() == u64::MAX {
        return Ok(false);
    }
    store.turn(alloc, &mut host, b"book")?;
    Ok(host.bytes(0) == new_first && host.bytes(1) == new_second)
}

#[test]
fn a_store_turns_to_the_other_file_and_back(rt: HostRuntime) -> Result<(), Fail> {
    for (first, second, new_first, new_second) in [
        (FIRST, b"".as_slice(), FIRST, SECOND),
        (FIRST, SECOND, THIRD, SECOND),
    ] {
        assert!(rt; turns(rt.alloc(), first, second, new_first, new_second)?);
    }
    Ok(())
}

// The second log with a record whose body is `one`.
const WITH_ONE: &[u8] =
    b"\x01OVERLORD\x01\0\0\0\0\0\0\0\x02\0\0\0\0\0\0\0\x04book\x01\0\0\0\x03one\0";

// Whether the store in two files with these bytes has this snapshot.
fn has_snapshot(alloc: Global, first: &[u8], second: &[u8], snapshot: &[u8]) -> Result<bool, Fail> {
    let mut host = host_with_pair(alloc, first, second)?;
    let store = open_store(alloc, &mut host, 0, 1000)?;
    let read = store.snapshot(alloc, &mut host)?;
    Ok(read.as_slice() == snapshot)
}

// Whether the first body in it is this one.
fn begins_with(alloc: Global, first: &[u8], second: &[u8], body: &[u8]) -> Result<bool, Fail> {
    let mut host = host_with_pair(alloc, first, second)?;
    let mut store = open_store(alloc, &mut host, 0, 1000)?;
    let mut read = Vec::new(alloc);
    Ok(store.next_body(&mut host, &mut read)? && read.as_slice() == body)
}

#[test]
fn the_current_file_is_read(rt: HostRuntime) -> Result<(), Fail> {
    assert!(rt; has_snapshot(rt.alloc(), FIRST, WITH_ONE, b"book")?);
    assert!(rt; begins_with(rt.alloc(), FIRST, WITH_ONE, b"one")?);
    Ok(())
}
