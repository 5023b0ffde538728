use crate::acting::{HOUR, NOW, act, submission};
use book_rows::{Command, ContentsPart, Items, LockKind, Reply, TaskStatus, TimelinePart, What};
use iv_span::Span;
use overlord_core::Overlord;
use seg_names::{Name, SegId, TaskId};
use std::alloc::Global;
use std::test::Fail;

fn first_hour() -> Result<Span, Fail> {
    Ok(Span::new(0, HOUR)?)
}

fn source(alloc: Global) -> Result<Name, Fail> {
    Ok(Name::new(alloc, b"w")?)
}

// What is published.
fn published_id(alloc: Global) -> Result<SegId, Fail> {
    let span = first_hour()?;
    let source = source(alloc)?;
    Ok(SegId {
        source,
        span,
        version: NOW,
        part: 0,
    })
}

fn is_first_hour(span: Span) -> bool {
    span.start() == 0 && span.end() == HOUR
}

fn is_published(ids: &Items<SegId>) -> bool {
    match ids.as_slice() {
        [id] => is_first_hour(id.span) && id.version == NOW && id.part == 0,
        _ => false,
    }
}

fn is_timeline(parts: &Items<TimelinePart>) -> bool {
    match parts.as_slice() {
        [part] => is_first_hour(part.span) && part.version == NOW && is_published(&part.ids),
        _ => false,
    }
}

fn are_contents(parts: &Items<ContentsPart>) -> bool {
    match parts.as_slice() {
        [part] => is_first_hour(part.span) && is_published(&part.roots),
        _ => false,
    }
}

// A word for the reply.
fn word_of(reply: &Reply) -> &'static str {
    match reply {
        Reply::Timeline { parts, .. } if is_timeline(parts) => "its chunk",
        Reply::Contents { parts, .. } if are_contents(parts) => "its root",
        Reply::ToReplace { ids } if is_published(ids) => "its id",
        Reply::Insert { .. } => "insert",
        _ => "another",
    }
}

fn said(overlord: &mut Overlord, alloc: Global, command: Command) -> Result<&'static str, Fail> {
    let done = act(overlord, alloc, &command);
    drop(command);
    let done = done?;
    let word = word_of(&done.reply);
    drop(done);
    Ok(word)
}

// A task gets a lock of the first hour.
fn start(
    overlord: &mut Overlord,
    alloc: Global,
    task: &[u8],
    lock_kind: LockKind,
) -> Result<(), Fail> {
    let hour = first_hour()?;
    said(
        overlord,
        alloc,
        submission(alloc, task, lock_kind, &[hour])?,
    )?;
    said(overlord, alloc, Command::Manage { now: NOW })?;
    Ok(())
}

fn insertion(alloc: Global) -> Result<Command, Fail> {
    let mut spans = Items::new(alloc);
    spans.push(first_hour()?)?;
    let mut ids = Items::new(alloc);
    ids.push(published_id(alloc)?)?;
    let task = TaskId::new(alloc, b"a")?;
    Ok(Command::Insert {
        task,
        spans,
        ids,
        tombstones: Items::new(alloc),
        ranges: None,
    })
}

fn ending(alloc: Global) -> Result<Command, Fail> {
    let task = TaskId::new(alloc, b"a")?;
    Ok(Command::End {
        task,
        status: TaskStatus::Success,
    })
}

// Task `a` publishes the first hour and ends. Answers how that is answered.
fn publish(overlord: &mut Overlord, alloc: Global) -> Result<&'static str, Fail> {
    start(overlord, alloc, b"a", LockKind::Exclusive)?;
    let word = said(overlord, alloc, insertion(alloc)?)?;
    said(overlord, alloc, ending(alloc)?)?;
    Ok(word)
}

fn show_timeline(overlord: &mut Overlord, alloc: Global) -> Result<&'static str, Fail> {
    let what = What::Timeline(source(alloc)?);
    said(overlord, alloc, Command::Show { what })
}

fn show_contents(overlord: &mut Overlord, alloc: Global) -> Result<&'static str, Fail> {
    let what = What::Contents(source(alloc)?);
    said(overlord, alloc, Command::Show { what })
}

// Task `r`, which is to replace the first hour, asks what is there.
fn ask(overlord: &mut Overlord, alloc: Global) -> Result<&'static str, Fail> {
    start(overlord, alloc, b"r", LockKind::Replace)?;
    let span = first_hour()?;
    let task = TaskId::new(alloc, b"r")?;
    said(overlord, alloc, Command::ToReplace { task, span })
}

// How a publication is answered, and what is shown of it then.
#[derive(Clone, Copy)]
struct Told {
    publication: &'static str,
    timeline: &'static str,
    contents: &'static str,
    replaced: &'static str,
}

fn publish_and_show(overlord: &mut Overlord, alloc: Global) -> Result<Told, Fail> {
    Ok(Told {
        publication: publish(overlord, alloc)?,
        timeline: show_timeline(overlord, alloc)?,
        contents: show_contents(overlord, alloc)?,
        replaced: ask(overlord, alloc)?,
    })
}

// The core is given back by name, and lives over no other end of a function: each would have to be proved.
fn words_told(alloc: Global) -> Result<Told, Fail> {
    let mut overlord = Overlord::new(alloc)?;
    let told = publish_and_show(&mut overlord, alloc);
    drop(overlord);
    told
}

#[test]
fn what_is_published_is_shown(rt: HostRuntime) -> Result<(), Fail> {
    let told = words_told(rt.alloc())?;
    assert!(rt; told.publication == "insert");
    assert!(rt; told.timeline == "its chunk");
    assert!(rt; told.contents == "its root");
    assert!(rt; told.replaced == "its id");
    Ok(())
}
