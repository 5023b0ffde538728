use book_rows::{Items, PubKind, Publication, Range, Ranges};
use iv_span::Span;
use seg_names::{Name, SegId, TaskId};
use std::alloc::Global;
use std::test::Fail;
use tab_streams::Streams;

const HOUR: i64 = 3_600_000;

// The id of a part of the first hour, in the source `w`.
fn part(alloc: Global, part: u32) -> Result<SegId, Fail> {
    let span = Span::new(0, HOUR)?;
    let source = Name::new(alloc, b"w")?;
    Ok(SegId {
        source,
        span,
        version: 0,
        part,
    })
}

fn parts(alloc: Global, numbers: &[u32]) -> Result<Items<SegId>, Fail> {
    let mut parts = Items::new(alloc);
    for number in numbers {
        parts.push(part(alloc, *number)?)?;
    }
    Ok(parts)
}

// What was read of partition 0 of the stream `s`.
fn ranges(alloc: Global, start: u64, end: u64) -> Result<Ranges, Fail> {
    let stream = Name::new(alloc, b"s")?;
    let range = Range {
        partition: 0,
        start,
        end,
    };
    let parts = Items::from_vec([range].to_vec(alloc)?);
    Ok(Ranges { stream, parts })
}

// A publication of the source `w` that adds these parts and has read a range.
fn publication(
    alloc: Global,
    kind: PubKind,
    numbers: &[u32],
    read: (u64, u64),
) -> Result<Publication, Fail> {
    let group = TaskId::new(alloc, b"g")?;
    let source = Name::new(alloc, b"w")?;
    let ranges = ranges(alloc, read.0, read.1)?;
    let adds = parts(alloc, numbers)?;
    Ok(Publication {
        kind,
        group,
        source,
        spans: Items::new(alloc),
        adds,
        empties: Items::new(alloc),
        ranges: Some(ranges),
    })
}

fn push(
    alloc: Global,
    streams: &mut Streams,
    kind: PubKind,
    numbers: &[u32],
    read: (u64, u64),
) -> Result<(), Fail> {
    let row = publication(alloc, kind, numbers, read)?;
    streams.push(row)?;
    Ok(())
}

// An append of parts 0 and 1, one of ranges alone, then a reset of their stream, and an append of ranges again.
fn push_four(alloc: Global, streams: &mut Streams) -> Result<(), Fail> {
    push(alloc, streams, PubKind::Append, &[0, 1], (0, 5))?;
    push(alloc, streams, PubKind::Append, &[], (5, 9))?;
    push(alloc, streams, PubKind::Reset, &[], (5, 5))?;
    push(alloc, streams, PubKind::Append, &[], (9, 12))
}

// Whether the publications of these numbers are resets, and how many there are.
fn kinds(alloc: Global, streams: &mut Streams) -> Result<([Option<bool>; 3], u64), Fail> {
    push_four(alloc, streams)?;
    let kinds = [0, 2, 4].map(|number| {
        streams
            .publication(number)
            .map(|row| row.kind == PubKind::Reset)
    });
    Ok((kinds, streams.count()))
}

fn commit_in(alloc: Global, streams: &mut Streams, number: u32) -> Result<Option<u64>, Fail> {
    push_four(alloc, streams)?;
    let id = part(alloc, number)?;
    Ok(streams.commit_of(&id))
}

fn repeat_in(
    alloc: Global,
    streams: &mut Streams,
    numbers: &[u32],
    read: (u64, u64),
) -> Result<Option<u64>, Fail> {
    push_four(alloc, streams)?;
    let like = publication(alloc, PubKind::Append, numbers, read)?;
    let commit = streams.repeat(&like);
    drop(like);
    Ok(commit)
}

// The table is given back by name, and lives over no other end of a function: each would have to be proved.
fn kinds_of_four(alloc: Global) -> Result<([Option<bool>; 3], u64), Fail> {
    let mut streams = Streams::new(alloc);
    let told = kinds(alloc, &mut streams);
    drop(streams);
    told
}

fn commit_of(alloc: Global, number: u32) -> Result<Option<u64>, Fail> {
    let mut streams = Streams::new(alloc);
    let told = commit_in(alloc, &mut streams, number);
    drop(streams);
    told
}

fn repeat(alloc: Global, numbers: &[u32], read: (u64, u64)) -> Result<Option<u64>, Fail> {
    let mut streams = Streams::new(alloc);
    let told = repeat_in(alloc, &mut streams, numbers, read);
    drop(streams);
    told
}

#[test]
fn publications_stand_in_the_order_of_adding(rt: HostRuntime) -> Result<(), Fail> {
    assert!(rt; kinds_of_four(rt.alloc())? == ([Some(false), Some(true), None], 4));
    Ok(())
}

#[test]
fn an_id_is_found_by_the_first_that_adds_it(rt: HostRuntime) -> Result<(), Fail> {
    for (number, commit) in [(1, Some(0)), (2, None)] {
        assert!(rt; commit_of(rt.alloc(), number)? == commit, "{number}");
    }
    Ok(())
}

// Ids are repeated over a reset, ranges alone only behind it.
#[test]
fn a_reset_makes_ranges_count_no_more(rt: HostRuntime) -> Result<(), Fail> {
    assert!(rt; repeat(rt.alloc(), &[0, 1], (0, 5))? == Some(0));
    assert!(rt; repeat(rt.alloc(), &[], (5, 9))? == None);
    assert!(rt; repeat(rt.alloc(), &[], (9, 12))? == Some(3));
    Ok(())
}
