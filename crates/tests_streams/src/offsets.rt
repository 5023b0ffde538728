use book_rows::{Offset, OffsetRow};
use seg_names::Name;
use std::alloc::Global;
use std::test::Fail;
use stream_offsets::{reset, room_for_reset};
use tab_streams::Streams;

// Stores an offset of the source `w`.
fn set(
    alloc: Global,
    streams: &mut Streams,
    stream: &[u8],
    partition: u32,
    offset: u64,
) -> Result<(), Fail> {
    let source = Name::new(alloc, b"w")?;
    let stream = Name::new(alloc, stream)?;
    streams.set(OffsetRow {
        source,
        stream,
        partition,
        offset,
    })?;
    Ok(())
}

// Two partitions of `b`, the first told twice, between one of `a` and one of `c`.
fn set_all(alloc: Global, streams: &mut Streams) -> Result<(), Fail> {
    set(alloc, streams, b"c", 0, 30)?;
    set(alloc, streams, b"b", 1, 21)?;
    set(alloc, streams, b"a", 0, 10)?;
    set(alloc, streams, b"b", 0, 19)?;
    set(alloc, streams, b"b", 0, 20)
}

const OFFSETS: [Offset; 3] = [
    Offset {
        partition: 1,
        offset: 5,
    },
    Offset {
        partition: 2,
        offset: 6,
    },
    Offset {
        partition: 3,
        offset: 7,
    },
];

// Puts these in the place of those of `b`, where there is room.
fn reset_one(alloc: Global, streams: &mut Streams) -> Result<(), Fail> {
    let source = Name::new(alloc, b"w")?;
    let stream = Name::new(alloc, b"b")?;
    if room_for_reset(streams, &source, &stream, &OFFSETS).is_none() {
        reset(streams, alloc, &source, &stream, &OFFSETS)?;
    }
    Ok(())
}

fn clear(alloc: Global, streams: &mut Streams, stream: &[u8]) -> Result<(), Fail> {
    let source = Name::new(alloc, b"w")?;
    let stream = Name::new(alloc, stream)?;
    streams.clear_stream(&source, &stream);
    Ok(())
}

// All streams of the source go, and one comes again.
fn clear_all(alloc: Global, streams: &mut Streams) -> Result<(), Fail> {
    clear(alloc, streams, b"a")?;
    clear(alloc, streams, b"c")?;
    clear(alloc, streams, b"b")?;
    set(alloc, streams, b"b", 1, 22)
}

// What follows the sets.
#[derive(Clone, Copy, Debug)]
enum Then {
    Nothing,
    Reset,
    Clear,
    ClearAll,
}

fn act(alloc: Global, streams: &mut Streams, then: Then) -> Result<(), Fail> {
    match then {
        Then::Nothing => Ok(()),
        Then::Reset => reset_one(alloc, streams),
        Then::Clear => clear(alloc, streams, b"b"),
        Then::ClearAll => clear_all(alloc, streams),
    }
}

fn stored(
    alloc: Global,
    streams: &Streams,
    stream: &[u8],
    partition: u32,
) -> Result<Option<u64>, Fail> {
    let source = Name::new(alloc, b"w")?;
    let stream = Name::new(alloc, stream)?;
    Ok(streams.stored(&source, &stream, partition))
}

// How many offsets are stored, and what is stored of both partitions of `b`, and of the last stream.
fn told(alloc: Global, streams: &Streams) -> Result<(usize, [Option<u64>; 3]), Fail> {
    let first = stored(alloc, streams, b"b", 0)?;
    let second = stored(alloc, streams, b"b", 1)?;
    let last = stored(alloc, streams, b"c", 0)?;
    Ok((streams.offset_count(), [first, second, last]))
}

fn told_after(
    alloc: Global,
    streams: &mut Streams,
    then: Then,
) -> Result<(usize, [Option<u64>; 3]), Fail> {
    set_all(alloc, streams)?;
    act(alloc, streams, then)?;
    told(alloc, streams)
}

// The table is given back by name, and lives over no other end of a function: each would have to be proved.
fn after(alloc: Global, then: Then) -> Result<(usize, [Option<u64>; 3]), Fail> {
    let mut streams = Streams::new(alloc);
    let told = told_after(alloc, &mut streams, then);
    drop(streams);
    told
}

// The stored offsets of `w`, each beside its partition, in the order of the table.
fn listed(alloc: Global, streams: &Streams) -> Result<Vec<(u32, u64)>, Fail> {
    let source = Name::new(alloc, b"w")?;
    let rows = streams.offsets_of(alloc, &source)?;
    let mut listed = Vec::new(alloc);
    for row in &rows {
        listed.push((row.partition, row.offset))?;
    }
    Ok(listed)
}

// Beside an offset of another source.
fn set_beside(alloc: Global, streams: &mut Streams) -> Result<(), Fail> {
    let source = Name::new(alloc, b"v")?;
    let stream = Name::new(alloc, b"b")?;
    streams.set(OffsetRow {
        source,
        stream,
        partition: 0,
        offset: 90,
    })?;
    Ok(())
}

fn listed_after(alloc: Global, streams: &mut Streams) -> Result<Vec<(u32, u64)>, Fail> {
    set_all(alloc, streams)?;
    set_beside(alloc, streams)?;
    listed(alloc, streams)
}

fn all_listed(alloc: Global) -> Result<Vec<(u32, u64)>, Fail> {
    let mut streams = Streams::new(alloc);
    let listed = listed_after(alloc, &mut streams);
    drop(streams);
    listed
}

#[test]
fn the_offsets_of_a_source_are_listed_in_order(rt: HostRuntime) -> Result<(), Fail> {
    let listed = all_listed(rt.alloc())?;
    assert!(rt; listed.as_slice() == [(0, 10), (0, 20), (1, 21), (0, 30)].as_slice());
    Ok(())
}

#[test]
fn offsets_are_stored_by_stream_and_partition(rt: HostRuntime) -> Result<(), Fail> {
    for (then, count, told) in [
        (Then::Nothing, 4, [Some(20), Some(21), Some(30)]),
        (Then::Reset, 5, [None, Some(5), Some(30)]),
        (Then::Clear, 2, [None, None, Some(30)]),
        (Then::ClearAll, 1, [None, Some(22), None]),
    ] {
        assert!(rt; after(rt.alloc(), then)? == (count, told), "{then:?}");
    }
    Ok(())
}
