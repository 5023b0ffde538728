use crate::fixtures::{set_status, waiting_task};
use book_rows::TaskStatus;
use seg_names::TaskId;
use std::alloc::Global;
use std::test::Fail;
use tab_tasks::Tasks;
use task_queue::{QueueFault, may_end, submit, waiting};

fn submitted(
    alloc: Global,
    tasks: &mut Tasks,
    task: &[u8],
) -> Result<Result<(), QueueFault>, Fail> {
    let row = waiting_task(alloc, task)?;
    Ok(submit(tasks, row))
}

// What two submissions of one task are answered, and how many tasks there are then.
fn submit_twice(
    alloc: Global,
    tasks: &mut Tasks,
) -> Result<([Result<(), QueueFault>; 2], usize), Fail> {
    let first = submitted(alloc, tasks, b"x")?;
    let again = submitted(alloc, tasks, b"x")?;
    Ok(([first, again], tasks.count()))
}

// A table is given back by name, and lives over no other end of a function: each would have to be proved.
fn submitted_twice(alloc: Global) -> Result<([Result<(), QueueFault>; 2], usize), Fail> {
    let mut tasks = Tasks::new(alloc);
    let told = submit_twice(alloc, &mut tasks);
    drop(tasks);
    told
}

#[test]
fn a_task_is_submitted_once(rt: HostRuntime) -> Result<(), Fail> {
    let (answers, count) = submitted_twice(rt.alloc())?;
    assert!(rt; answers == [Ok(()), Err(QueueFault::Exists)]);
    assert!(rt; count == 1);
    Ok(())
}

// The tasks `c`, `a`, `b` and `d`, of which `a` runs and `d` has failed.
fn submit_four(alloc: Global, tasks: &mut Tasks) -> Result<(), Fail> {
    for task in [b"c", b"a", b"b", b"d"] {
        submitted(alloc, tasks, task)??;
    }
    set_status(alloc, tasks, b"a", TaskStatus::Running)?;
    set_status(alloc, tasks, b"d", TaskStatus::Failed)
}

// Whether this id, or none, is the waiting one at the place.
fn waits_in(
    alloc: Global,
    tasks: &mut Tasks,
    place: usize,
    id: Option<&str>,
) -> Result<bool, Fail> {
    submit_four(alloc, tasks)?;
    let ids = waiting(alloc, tasks)?;
    Ok(ids.get(place).map(|id| id.as_str()) == id)
}

fn waits_at(alloc: Global, place: usize, id: Option<&str>) -> Result<bool, Fail> {
    let mut tasks = Tasks::new(alloc);
    let told = waits_in(alloc, &mut tasks, place, id);
    drop(tasks);
    told
}

#[test]
fn tasks_wait_in_the_order_of_submitting(rt: HostRuntime) -> Result<(), Fail> {
    for (place, id) in [(0, Some("c")), (1, Some("b")), (2, None)] {
        assert!(rt; waits_at(rt.alloc(), place, id)?, "at {place}");
    }
    Ok(())
}

fn end_in(
    alloc: Global,
    tasks: &mut Tasks,
    task: &[u8],
    status: TaskStatus,
) -> Result<Result<bool, QueueFault>, Fail> {
    submit_four(alloc, tasks)?;
    let task = TaskId::new(alloc, task)?;
    Ok(may_end(tasks, &task, status))
}

fn end(alloc: Global, task: &[u8], status: TaskStatus) -> Result<Result<bool, QueueFault>, Fail> {
    let mut tasks = Tasks::new(alloc);
    let told = end_in(alloc, &mut tasks, task, status);
    drop(tasks);
    told
}

#[test]
fn a_task_that_waits_may_only_fail_and_ends_once(rt: HostRuntime) -> Result<(), Fail> {
    let waits = Err(QueueFault::NotRunning(TaskStatus::Waiting));
    let ended = Err(QueueFault::Ended(TaskStatus::Failed));
    for (task, status, answer) in [
        (b"b", TaskStatus::Success, waits),
        (b"b", TaskStatus::Failed, Ok(true)),
        (b"d", TaskStatus::Failed, Ok(false)),
        (b"d", TaskStatus::Success, ended),
        (b"y", TaskStatus::Failed, Err(QueueFault::Unknown)),
    ] {
        assert!(rt; end(rt.alloc(), task, status)? == answer, "{answer:?}");
    }
    Ok(())
}
