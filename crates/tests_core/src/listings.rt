use crate::acting::act;
use book_rows::{Command, Items, Offset, Reply, What};
use overlord_core::Overlord;
use seg_names::Name;
use std::alloc::Global;
use std::test::Fail;

// How many rows are listed, where any are to be.
fn rows_in(reply: &Reply) -> Option<usize> {
    match reply {
        Reply::Tasks { tasks } => Some(tasks.len()),
        Reply::Locks { locks } => Some(locks.len()),
        Reply::Offsets { offsets, .. } => Some(offsets.len()),
        Reply::Sequences { sequences, .. } => Some(sequences.len()),
        _ => None,
    }
}

fn listed(overlord: &mut Overlord, alloc: Global, what: What) -> Result<Option<usize>, Fail> {
    let command = Command::Show { what };
    let done = act(overlord, alloc, &command);
    drop(command);
    let done = done?;
    let rows = rows_in(&done.reply);
    drop(done);
    Ok(rows)
}

// One offset of a stream of the source `w`.
fn reset(overlord: &mut Overlord, alloc: Global) -> Result<(), Fail> {
    let source = Name::new(alloc, b"w")?;
    let stream = Name::new(alloc, b"t")?;
    let mut offsets = Items::new(alloc);
    offsets.push(Offset {
        partition: 0,
        offset: 5,
    })?;
    let command = Command::Reset {
        source,
        stream,
        offsets,
    };
    let done = act(overlord, alloc, &command);
    drop(command);
    drop(done?);
    Ok(())
}

fn list_all(overlord: &mut Overlord, alloc: Global) -> Result<([Option<usize>; 4], u64), Fail> {
    reset(overlord, alloc)?;
    let tasks = listed(overlord, alloc, What::Tasks)?;
    let locks = listed(overlord, alloc, What::Locks)?;
    let offsets = listed(overlord, alloc, What::Offsets(Name::new(alloc, b"w")?))?;
    let sequences = listed(overlord, alloc, What::Sequences(Name::new(alloc, b"w")?))?;
    Ok(([tasks, locks, offsets, sequences], overlord.commits()))
}

fn all_listed(alloc: Global) -> Result<([Option<usize>; 4], u64), Fail> {
    let mut overlord = Overlord::new(alloc)?;
    let listed = list_all(&mut overlord, alloc);
    drop(overlord);
    listed
}

// Of one reset there is an offset, and a publication.
#[test]
fn rows_are_listed(rt: HostRuntime) -> Result<(), Fail> {
    let listed = all_listed(rt.alloc())?;
    assert!(rt; listed == ([Some(0), Some(0), Some(1), Some(0)], 1));
    Ok(())
}
