use iv_span::Span;
use seg_names::{Name, NameFault, SegFault, SegId, TaskId, has_one_text};
use std::alloc::Global;
use std::cmp::Ordering;
use std::test::Fail;

// What follows the source of the ids below.
const AFTER_SOURCE: &[u8] =
    b"_2024-03-01T00:00:00.000Z_2024-03-02T00:00:00.000Z_2024-03-06T05:47:12.345Z";

// Ids of the day from 2024-03-01 and of that version, with their sources and parts.
const IDS: [(&str, &str, u32); 4] = [
    (
        "a_b_1_2024-03-01T00:00:00.000Z_2024-03-02T00:00:00.000Z_2024-03-06T05:47:12.345Z",
        "a_b_1",
        0,
    ),
    (
        "a_b_1_2024-03-01T00:00:00.000Z_2024-03-02T00:00:00.000Z_2024-03-06T05:47:12.345Z_7",
        "a_b_1",
        7,
    ),
    (
        "w_2024-03-01T00:00:00.000Z_2024-03-02T00:00:00.000Z_2024-03-06T05:47:12.345Z_4294967295",
        "w",
        4_294_967_295,
    ),
    (
        "__2024-03-01T00:00:00.000Z_2024-03-02T00:00:00.000Z_2024-03-06T05:47:12.345Z_10",
        "_",
        10,
    ),
];

// Whether the text is the id of this source and part.
fn reads(alloc: Global, text: &[u8], source: &str, part: u32) -> Result<bool, Fail> {
    let id = SegId::parse(alloc, text)?;
    let day = Span::new(1_709_251_200_000, 1_709_337_600_000)?;
    let is_read = id.source.as_str() == source && id.part == part;
    Ok(is_read && id.span == day && id.version == 1_709_704_032_345)
}

// Whether the id is written as it was read.
fn writes_again(alloc: Global, text: &[u8]) -> Result<bool, Fail> {
    let id = SegId::parse(alloc, text)?;
    let written = id.write(alloc)?;
    Ok(written.as_slice() == text)
}

fn has_twin(alloc: Global, text: &[u8]) -> Result<bool, Fail> {
    let id = SegId::parse(alloc, text)?;
    let twin = id.twin(alloc)?;
    Ok(twin == id)
}

#[test]
fn texts_of_ids(rt: HostRuntime) -> Result<(), Fail> {
    for (text, source, part) in IDS {
        assert!(rt; reads(rt.alloc(), text.as_bytes(), source, part)?, "{text}");
        assert!(rt; writes_again(rt.alloc(), text.as_bytes())?, "{text}");
        assert!(rt; has_twin(rt.alloc(), text.as_bytes())?, "{text}");
    }
    has_one_text();
    Ok(())
}

#[test]
fn texts_of_no_id(rt: HostRuntime) -> Result<(), Fail> {
    let alloc = rt.alloc();
    for text in [
        "",
        // parts
        "w_2024-03-01T00:00:00.000Z_2024-03-02T00:00:00.000Z_2024-03-06T05:47:12.345Z_",
        "w_2024-03-01T00:00:00.000Z_2024-03-02T00:00:00.000Z_2024-03-06T05:47:12.345Z_0",
        "w_2024-03-01T00:00:00.000Z_2024-03-02T00:00:00.000Z_2024-03-06T05:47:12.345Z_07",
        "w_2024-03-01T00:00:00.000Z_2024-03-02T00:00:00.000Z_2024-03-06T05:47:12.345Z_+7",
        "w_2024-03-01T00:00:00.000Z_2024-03-02T00:00:00.000Z_2024-03-06T05:47:12.345Z_7a",
        "w_2024-03-01T00:00:00.000Z_2024-03-02T00:00:00.000Z_2024-03-06T05:47:12.345Z7",
        "w_2024-03-01T00:00:00.000Z_2024-03-02T00:00:00.000Z_2024-03-06T05:47:12.345Z_4294967296",
        // spans
        "w_2024-03-02T00:00:00.000Z_2024-03-02T00:00:00.000Z_2024-03-06T05:47:12.345Z",
        "w_2024-03-02T00:00:00.001Z_2024-03-02T00:00:00.000Z_2024-03-06T05:47:12.345Z",
        // instants
        "w_2024-03-01_2024-03-02_2024-03-06",
        "w_2024-03-01T00:00Z_2024-03-02T00:00Z_2024-03-06T05:47Z",
        "w_2024-03-01T00:00:00.000_2024-03-02T00:00:00.000Z_2024-03-06T05:47:12.345Z",
        "w_2024-03-01T00:00:00.000Z_2024-03-02T00:00:00.000Z_2024-03-06T05:47:12.345",
        "w_2024-02-30T00:00:00.000Z_2024-03-02T00:00:00.000Z_2024-03-06T05:47:12.345Z",
        "w_2024-03-01T00:00:00.000Z_2024-03-02T00:00:00.000Z",
        "w_1709251200000_1709337600000_1709704032345",
        // what stands between
        "w-2024-03-01T00:00:00.000Z_2024-03-02T00:00:00.000Z_2024-03-06T05:47:12.345Z",
        "w_2024-03-01T00:00:00.000Z/2024-03-02T00:00:00.000Z_2024-03-06T05:47:12.345Z",
        // sources
        "_2024-03-01T00:00:00.000Z_2024-03-02T00:00:00.000Z_2024-03-06T05:47:12.345Z",
        "2024-03-01T00:00:00.000Z_2024-03-02T00:00:00.000Z_2024-03-06T05:47:12.345Z",
        "w x_2024-03-01T00:00:00.000Z_2024-03-02T00:00:00.000Z_2024-03-06T05:47:12.345Z",
        "ü_2024-03-01T00:00:00.000Z_2024-03-02T00:00:00.000Z_2024-03-06T05:47:12.345Z",
    ] {
        let fault = SegId::parse(alloc, text.as_bytes()).err();
        assert!(rt; fault == Some(SegFault::BadSegId), "{text}");
    }
    Ok(())
}

fn letters(alloc: Global, count: usize) -> Result<Vec<u8>, Fail> {
    Ok(vec![in alloc; b'n'; count]?)
}

// The text of an id whose source has so many bytes.
fn long_text(alloc: Global, count: usize) -> Result<Vec<u8>, Fail> {
    let mut text = letters(alloc, count)?;
    text.extend_from_slice(AFTER_SOURCE)?;
    Ok(text)
}

// The length of the source of such an id, where there is one.
fn source_of(alloc: Global, count: usize) -> Result<Result<usize, SegFault>, Fail> {
    let text = long_text(alloc, count)?;
    Ok(SegId::parse(alloc, &text).map(|id| id.source.bytes().len()))
}

#[test]
fn the_source_of_an_id_has_at_most_200_bytes(rt: HostRuntime) -> Result<(), Fail> {
    for (count, length) in [(200, Ok(200)), (201, Err(SegFault::BadSegId))] {
        assert!(rt; source_of(rt.alloc(), count)? == length, "of {count}");
    }
    let longest = long_text(rt.alloc(), 200)?;
    assert!(rt; writes_again(rt.alloc(), &longest)?);
    Ok(())
}

// Whether a name has these bytes, this text and an equal twin.
fn keeps_name(alloc: Global, text: &str) -> Result<bool, Fail> {
    let name = Name::new(alloc, text.as_bytes())?;
    let twin = name.twin(alloc)?;
    Ok(name.bytes() == text.as_bytes() && name.as_str() == text && twin == name)
}

fn order_of_names(alloc: Global, one: &[u8], other: &[u8]) -> Result<Ordering, Fail> {
    let one = Name::new(alloc, one)?;
    let other = Name::new(alloc, other)?;
    Ok(one.cmp(&other))
}

#[test]
fn names_keep_their_bytes_and_stand_in_their_order(rt: HostRuntime) -> Result<(), Fail> {
    assert!(rt; keeps_name(rt.alloc(), "a-Z_0.9")?);
    let order = order_of_names(rt.alloc(), b"a-Z_0.9", b"a-Z_1")?;
    assert!(rt; order == Ordering::Less);
    Ok(())
}

// The length of a name of so many letters, where there is one.
fn name_of(alloc: Global, count: usize) -> Result<Result<usize, NameFault>, Fail> {
    let text = letters(alloc, count)?;
    Ok(Name::new(alloc, &text).map(|name| name.bytes().len()))
}

#[test]
fn a_name_has_at_most_200_bytes(rt: HostRuntime) -> Result<(), Fail> {
    for (count, length) in [(200, Ok(200)), (201, Err(NameFault::BadName))] {
        assert!(rt; name_of(rt.alloc(), count)? == length, "of {count}");
    }
    Ok(())
}

#[test]
fn texts_of_no_name(rt: HostRuntime) {
    for text in ["", " ", "a b", "a:b", "a/b", "ä", "a\n"] {
        let fault = Name::new(rt.alloc(), text.as_bytes()).err();
        assert!(rt; fault == Some(NameFault::BadName), "{text}");
    }
}

// Whether a task's id has these bytes, this text and an equal twin.
fn keeps_task_id(alloc: Global, text: &str) -> Result<bool, Fail> {
    let task = TaskId::new(alloc, text.as_bytes())?;
    let twin = task.twin(alloc)?;
    Ok(task.bytes() == text.as_bytes() && task.as_str() == text && twin == task)
}

fn order_of_task_ids(alloc: Global, one: &[u8], other: &[u8]) -> Result<Ordering, Fail> {
    let one = TaskId::new(alloc, one)?;
    let other = TaskId::new(alloc, other)?;
    Ok(one.cmp(&other))
}

#[test]
fn task_ids_keep_their_bytes_and_stand_in_their_order(rt: HostRuntime) -> Result<(), Fail> {
    assert!(rt; keeps_task_id(rt.alloc(), "sup:w ü")?);
    let order = order_of_task_ids(rt.alloc(), "sup:w ü".as_bytes(), b"sup")?;
    assert!(rt; order == Ordering::Greater);
    Ok(())
}

// The length of a task's id of so many letters, where there is one.
fn task_id_of(alloc: Global, count: usize) -> Result<Result<usize, NameFault>, Fail> {
    let text = letters(alloc, count)?;
    Ok(TaskId::new(alloc, &text).map(|task| task.bytes().len()))
}

#[test]
fn a_task_id_has_at_most_255_bytes(rt: HostRuntime) -> Result<(), Fail> {
    for (count, length) in [(255, Ok(255)), (256, Err(NameFault::BadName))] {
        assert!(rt; task_id_of(rt.alloc(), count)? == length, "of {count}");
    }
    Ok(())
}

#[test]
fn texts_of_no_task_id(rt: HostRuntime) {
    for text in [b"".as_slice(), b"a\xff"] {
        let fault = TaskId::new(rt.alloc(), text).err();
        assert!(rt; fault == Some(NameFault::BadName));
    }
}

#[test]
fn order_of_ids(rt: HostRuntime) -> Result<(), Fail> {
    let alloc = rt.alloc();
    let mut last = SegId::parse(
        alloc,
        b"w_2024-03-01T00:00:00.000Z_2024-03-02T00:00:00.000Z_2024-03-06T05:47:12.345Z",
    )?;
    // by the part's number, the version, the end, the start and the source
    for text in [
        "w_2024-03-01T00:00:00.000Z_2024-03-02T00:00:00.000Z_2024-03-06T05:47:12.345Z_2",
        "w_2024-03-01T00:00:00.000Z_2024-03-02T00:00:00.000Z_2024-03-06T05:47:12.345Z_10",
        "w_2024-03-01T00:00:00.000Z_2024-03-02T00:00:00.000Z_2024-03-06T05:47:12.346Z_1",
        "w_2024-03-01T00:00:00.000Z_2024-03-03T00:00:00.000Z_2024-03-06T05:47:12.345Z",
        "w_2024-03-01T01:00:00.000Z_2024-03-02T00:00:00.000Z_2024-03-06T05:47:12.345Z",
        "x_2024-03-01T00:00:00.000Z_2024-03-02T00:00:00.000Z_2024-03-06T05:47:12.345Z",
    ] {
        let id = SegId::parse(alloc, text.as_bytes())?;
        assert!(rt; last < id, "{text}");
        last = id;
    }
    Ok(())
}
