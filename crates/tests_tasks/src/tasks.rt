use crate::fixtures::{set_status, waiting_task};
use book_rows::TaskStatus;
use seg_names::TaskId;
use std::alloc::Global;
use std::test::Fail;
use tab_tasks::Tasks;

// Adds a task that waits. Answers whether its id was new.
fn add(alloc: Global, tasks: &mut Tasks, task: &[u8]) -> Result<bool, Fail> {
    let row = waiting_task(alloc, task)?;
    if tasks.get(&row.task).is_some() {
        return Ok(false);
    }
    tasks.add(row)?;
    Ok(true)
}

fn add_three(alloc: Global, tasks: &mut Tasks) -> Result<(), Fail> {
    for task in [b"b", b"a", b"c"] {
        let _ = add(alloc, tasks, task)?;
    }
    Ok(())
}

// How many tasks there are, and whether this one, or none, stands at the place.
fn is_in(
    alloc: Global,
    tasks: &mut Tasks,
    place: usize,
    task: Option<&str>,
) -> Result<(usize, bool), Fail> {
    add_three(alloc, tasks)?;
    let is_at = tasks.row(place).map(|row| row.task.as_str()) == task;
    Ok((tasks.count(), is_at))
}

// A table is given back by name, and lives over no other end of a function: each would have to be proved.
fn count_and_is_at(alloc: Global, place: usize, task: Option<&str>) -> Result<(usize, bool), Fail> {
    let mut tasks = Tasks::new(alloc);
    let told = is_in(alloc, &mut tasks, place, task);
    drop(tasks);
    told
}

#[test]
fn keeps_tasks_in_the_order_of_adding(rt: HostRuntime) -> Result<(), Fail> {
    for (place, task) in [(0, Some("b")), (1, Some("a")), (2, Some("c")), (3, None)] {
        assert!(rt;
            count_and_is_at(rt.alloc(), place, task)? == (3, true),
            "at {place}"
        );
    }
    Ok(())
}

// Whether each of three tasks was new: one that is there, one that isn't, and the same again.
fn add_again(alloc: Global, tasks: &mut Tasks) -> Result<[bool; 3], Fail> {
    add_three(alloc, tasks)?;
    let there = add(alloc, tasks, b"a")?;
    let first = add(alloc, tasks, b"d")?;
    let again = add(alloc, tasks, b"d")?;
    Ok([there, first, again])
}

fn are_new(alloc: Global) -> Result<[bool; 3], Fail> {
    let mut tasks = Tasks::new(alloc);
    let told = add_again(alloc, &mut tasks);
    drop(tasks);
    told
}

// The status of a task after that of `a` was set.
fn status_in(alloc: Global, tasks: &mut Tasks, task: &[u8]) -> Result<Option<TaskStatus>, Fail> {
    add_three(alloc, tasks)?;
    set_status(alloc, tasks, b"a", TaskStatus::Failed)?;
    let task = TaskId::new(alloc, task)?;
    Ok(tasks.get(&task).map(|row| row.status))
}

fn status_after(alloc: Global, task: &[u8]) -> Result<Option<TaskStatus>, Fail> {
    let mut tasks = Tasks::new(alloc);
    let told = status_in(alloc, &mut tasks, task);
    drop(tasks);
    told
}

#[test]
fn finds_tasks_by_id_and_sets_the_status_of_one(rt: HostRuntime) -> Result<(), Fail> {
    assert!(rt; are_new(rt.alloc())? == [false, true, false]);
    for (task, status) in [
        (b"b", Some(TaskStatus::Waiting)),
        (b"a", Some(TaskStatus::Failed)),
        (b"d", None),
    ] {
        assert!(rt; status_after(rt.alloc(), task)? == status, "{status:?}");
    }
    Ok(())
}
