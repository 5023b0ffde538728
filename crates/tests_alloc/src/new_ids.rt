ghost use Rattle.std.specs.Prelude.{◌≡◌, []};

use crate::fixtures::{chunk, hours, new_pending};
use book_rows::Table;
use seg_alloc::{AllotFault, allot, room_for};
use seg_names::{Name, SegId};
use std::alloc::Global;
use std::test::Fail;
use tab_pending::Pendings;
use tab_segments::Segments;

// The chunk of the sixth hour, where a part is told.
fn add_chunk(alloc: Global, segments: &mut Segments, next: Option<u32>) -> Result<(), Fail>
    requires { segments.old.chunks ≡ [] }
{
    if let Some(next) = next {
        let row = chunk(alloc, next)?;
        segments.add_chunk(row)?;
    }
    Ok(())
}

// The part that the chunk gives next.
fn next_part(alloc: Global, segments: &Segments) -> Result<Option<u32>, Fail> {
    let span = hours(5, 6)?;
    let source = Name::new(alloc, b"w")?;
    Ok(segments.chunk(&source, span, 0).map(|row| row.next))
}

fn part_of(answer: Result<SegId, AllotFault>) -> Result<u32, AllotFault> {
    match answer {
        Ok(id) => Ok(id.part),
        Err(fault) => Err(fault),
    }
}

// The part that is given, what is given next, and the number of pendings then.
type Given = (Result<u32, AllotFault>, Option<u32>, usize);

fn give(
    alloc: Global,
    segments: &mut Segments,
    pendings: &mut Pendings,
    next: Option<u32>,
) -> Result<Given, Fail>
    requires { segments.old.chunks ≡ [] }
{
    add_chunk(alloc, segments, next)?;
    let row = new_pending(alloc, hours(5, 6)?)?;
    let answer = part_of(allot(alloc, segments, pendings, row));
    let after = next_part(alloc, segments)?;
    Ok((answer, after, pendings.count()))
}

// The tables are given back by name, and live over no other end of a function: each would have to be proved.
fn given(alloc: Global, next: Option<u32>) -> Result<Given, Fail> {
    let mut segments = Segments::new(alloc);
    let mut pendings = Pendings::new(alloc);
    let given = give(alloc, &mut segments, &mut pendings, next);
    drop(segments);
    drop(pendings);
    given
}

// A chunk that is there has no pending of its parts any more: what it gives next is the row's word.
#[test]
fn a_chunk_gives_its_parts_up_to_the_last(rt: HostRuntime) -> Result<(), Fail> {
    for (next, answer, after, count) in [
        (None, Ok(0), 1, 1),
        (Some(999_999), Ok(999_999), 1_000_000, 1),
        (
            Some(1_000_000),
            Err(AllotFault::Full(Table::Parts)),
            1_000_000,
            0,
        ),
    ] {
        let given = given(rt.alloc(), next)?;
        assert!(rt; given.0 == answer, "{next:?}");
        assert!(rt; (given.1, given.2) == (Some(after), count), "{next:?}");
    }
    Ok(())
}

// The table that has no room for a part of a new chunk.
fn room(alloc: Global) -> Result<Option<Table>, Fail> {
    let row = new_pending(alloc, hours(5, 6)?)?;
    let segments = Segments::new(alloc);
    let pendings = Pendings::new(alloc);
    let table = room_for(&segments, &pendings, &row, &[1]);
    drop(row);
    drop(segments);
    drop(pendings);
    Ok(table)
}

#[test]
fn empty_tables_have_room(rt: HostRuntime) -> Result<(), Fail> {
    assert!(rt; room(rt.alloc())? == None);
    Ok(())
}
