use crate::acting::{HOUR, NOW, act, submission};
use book_rows::{Command, Items, LockKind, Refusal, Reply};
use iv_span::Span;
use overlord_core::{Outcome, Overlord};
use seg_names::TaskId;
use std::alloc::Global;
use std::test::Fail;

// What is said of an outcome: whether the book changes, and a word for the reply.
#[derive(Clone, Copy)]
struct Answer {
    changes: bool,
    word: &'static str,
}

fn the_one(ids: &Items<TaskId>) -> &str {
    match ids.as_slice() {
        [id] => id.as_str(),
        [] => "",
        _ => "many",
    }
}

fn word_of(reply: &Reply) -> &'static str {
    match reply {
        Reply::Submit { .. } => "submit",
        Reply::Manage { running, waiting } if the_one(running) == "a" && the_one(waiting) == "b" =>
            { "a runs, b waits" }
        Reply::Refused(Refusal::TaskExists) => "task exists",
        _ => "another",
    }
}

fn answered(done: Outcome) -> Answer {
    let (changes, word) = (done.changes, word_of(&done.reply));
    drop(done);
    Answer { changes, word }
}

fn submit(
    overlord: &mut Overlord,
    alloc: Global,
    task: &[u8],
    hours: &[Span],
) -> Result<Answer, Fail> {
    let command = submission(alloc, task, LockKind::Exclusive, hours)?;
    let done = act(overlord, alloc, &command);
    drop(command);
    Ok(answered(done?))
}

fn manage(overlord: &mut Overlord, alloc: Global) -> Result<Answer, Fail> {
    let done = act(overlord, alloc, &Command::Manage { now: NOW })?;
    Ok(answered(done))
}

// Task `a` waits for the first hour, and task `b` for the second and the first. Answers whether both change the book.
fn submit_both(overlord: &mut Overlord, alloc: Global) -> Result<bool, Fail> {
    let first = Span::new(0, HOUR)?;
    let second = Span::new(HOUR, HOUR + HOUR)?;
    let one = submit(overlord, alloc, b"a", &[first])?;
    let other = submit(overlord, alloc, b"b", &[second, first])?;
    Ok(one.changes && other.changes)
}

// Whether two submissions of one task are answered so.
fn submit_twice(overlord: &mut Overlord, alloc: Global) -> Result<bool, Fail> {
    let first = submit(overlord, alloc, b"a", &[])?;
    let again = submit(overlord, alloc, b"a", &[])?;
    Ok(first.changes && first.word == "submit" && !again.changes && again.word == "task exists")
}

// The core is given back by name, and lives over no other end of a function: each would have to be proved.
fn is_submitted_once(alloc: Global) -> Result<bool, Fail> {
    let mut overlord = Overlord::new(alloc)?;
    let is = submit_twice(&mut overlord, alloc);
    drop(overlord);
    is
}

#[test]
fn a_task_is_submitted_once(rt: HostRuntime) -> Result<(), Fail> {
    assert!(rt; is_submitted_once(rt.alloc())?);
    Ok(())
}

fn submit_and_manage(overlord: &mut Overlord, alloc: Global) -> Result<(bool, Answer), Fail> {
    let changes = submit_both(overlord, alloc)?;
    let said = manage(overlord, alloc)?;
    Ok((changes, said))
}

fn managed(alloc: Global) -> Result<(bool, Answer), Fail> {
    let mut overlord = Overlord::new(alloc)?;
    let said = submit_and_manage(&mut overlord, alloc);
    drop(overlord);
    said
}

// The first task gets its lock, and the second waits for both of its own.
#[test]
fn tasks_start_with_all_their_locks(rt: HostRuntime) -> Result<(), Fail> {
    let (changes, said) = managed(rt.alloc())?;
    assert!(rt; changes);
    assert!(rt; said.word == "a runs, b waits");
    Ok(())
}
