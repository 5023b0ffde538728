//! A supervisor is led through its first sequence.
use crate::acting::{HOUR, NOW, act};
use book_rows::{Command, Items, Offset, Range, Ranges, Reply, SeqState};
use overlord_core::{Outcome, Overlord};
use seg_names::{Name, TaskId};
use std::alloc::Global;
use std::test::Fail;

fn the_one(ids: &Items<TaskId>) -> &str {
    match ids.as_slice() {
        [id] => id.as_str(),
        [] => "",
        _ => "many",
    }
}

fn the_offset(offsets: &Items<Offset>) -> u64 {
    match offsets.as_slice() {
        [offset] => offset.offset,
        _ => 0,
    }
}

// A word for the reply to each step of the first sequence.
fn word_of(reply: &Reply) -> &'static str {
    match reply {
        Reply::Supervise { .. } => "supervised",
        Reply::Tick { opened, .. } if the_one(opened) == "sup:w:0:0" => "opened",
        Reply::Manage { running, .. } if the_one(running) == "sup:w:0:0:0" => "running",
        Reply::Checkpoint {
            ends,
            state: SeqState::Closed,
        } if the_offset(ends) == 10 => "closed",
        Reply::Append { commit: 0 } => "published",
        _ => "another",
    }
}

fn answered(done: Outcome) -> &'static str {
    let word = word_of(&done.reply);
    drop(done);
    word
}

// A supervisor of one partition of stream `t`, with one replica.
fn supervision(alloc: Global) -> Result<Command, Fail> {
    let source = Name::new(alloc, b"w")?;
    let stream = Name::new(alloc, b"t")?;
    Ok(Command::Supervise {
        source,
        stream,
        partitions: 1,
        task_count: 1,
        replicas: 1,
        task_duration: HOUR,
        completion_timeout: HOUR,
    })
}

fn replica(alloc: Global) -> Result<TaskId, Fail> {
    Ok(TaskId::new(alloc, b"sup:w:0:0:0")?)
}

// The replica has read ten records.
fn checkpoint(alloc: Global) -> Result<Command, Fail> {
    let task = replica(alloc)?;
    let mut offsets = Items::new(alloc);
    offsets.push(Offset {
        partition: 0,
        offset: 10,
    })?;
    Ok(Command::Checkpoint { task, offsets })
}

// It publishes them.
fn publish(alloc: Global) -> Result<Command, Fail> {
    let task = replica(alloc)?;
    let stream = Name::new(alloc, b"t")?;
    let mut parts = Items::new(alloc);
    parts.push(Range {
        partition: 0,
        start: 0,
        end: 10,
    })?;
    Ok(Command::Append {
        task,
        ids: Items::new(alloc),
        ranges: Some(Ranges { stream, parts }),
    })
}

fn said(overlord: &mut Overlord, alloc: Global, command: &Command) -> Result<&'static str, Fail> {
    Ok(answered(act(overlord, alloc, command)?))
}

fn supervise(overlord: &mut Overlord, alloc: Global) -> Result<&'static str, Fail> {
    let command = supervision(alloc)?;
    let word = said(overlord, alloc, &command);
    drop(command);
    word
}

// The first sequence opens, and its replica runs.
fn open(overlord: &mut Overlord, alloc: Global) -> Result<bool, Fail> {
    let first = supervise(overlord, alloc)?;
    let second = said(overlord, alloc, &Command::Tick { now: NOW })?;
    let third = said(overlord, alloc, &Command::Manage { now: NOW })?;
    Ok(first == "supervised" && second == "opened" && third == "running")
}

fn report(overlord: &mut Overlord, alloc: Global) -> Result<&'static str, Fail> {
    let command = checkpoint(alloc)?;
    let word = said(overlord, alloc, &command);
    drop(command);
    word
}

fn append(overlord: &mut Overlord, alloc: Global) -> Result<&'static str, Fail> {
    let command = publish(alloc)?;
    let word = said(overlord, alloc, &command);
    drop(command);
    word
}

// The sequence closes and is published.
fn close(overlord: &mut Overlord, alloc: Global) -> Result<bool, Fail> {
    let first = report(overlord, alloc)?;
    let second = append(overlord, alloc)?;
    Ok(first == "closed" && second == "published")
}

fn open_and_close(overlord: &mut Overlord, alloc: Global) -> Result<bool, Fail> {
    let opens = open(overlord, alloc)?;
    let closes = close(overlord, alloc)?;
    Ok(opens && closes)
}

// The core is given back by name, and lives over no other end of a function: each would have to be proved.
fn is_led_through(alloc: Global) -> Result<bool, Fail> {
    let mut overlord = Overlord::new(alloc)?;
    let is = open_and_close(&mut overlord, alloc);
    drop(overlord);
    is
}

#[test]
fn a_sequence_opens_closes_and_is_published(rt: HostRuntime) -> Result<(), Fail> {
    assert!(rt; is_led_through(rt.alloc())?);
    Ok(())
}
