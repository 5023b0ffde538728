//! The tasks that wait, found by their places.
ghost use Rattle.std.specs.Prelude.{◌≡◌, ◌||◌, filter, length, map, slice_get, Bool, IfOk};
ghost use Rattle.std.specs.Option.{option_copied};
ghost use Rattle.std.specs.Map.{values_of};
ghost use Rattle.book_rows.specs.Kinds.{same_status};
ghost use Rattle.book_rows.specs.TaskSteps.{is_waiting};
ghost use Rattle.tab_tasks.specs.Waiting.{AreListed, if_waiting, rows_in, waiting_at, waits_at};

use crate::OutOfMemory;
use book_rows::{TaskRow, TaskStatus};
use indexmap::IndexMap;
use seg_names::TaskId;
use std::alloc::Global;

// So many changes are let pass before the places are cleaned, however few there are.
const SLACK: usize = 32;

fn waits(status: TaskStatus) -> bool
    ensures { result ≡ same_status status TaskStatus.Waiting }
{
    match status {
        TaskStatus::Waiting => true,
        TaskStatus::Running | TaskStatus::Success | TaskStatus::Failed => false,
    }
}

/// Whether a task was set back to waiting, by whether one was before and by the status that is set.
pub fn is_back_after(is_back: bool, status: TaskStatus) -> bool
    ensures { result ≡ (is_back || same_status status TaskStatus.Waiting) }
{
    is_back || waits(status)
}

/// How many rows there are.
pub fn row_count(rows: &IndexMap<TaskId, TaskRow>) -> usize
    ensures { result ≡ length (values_of rows.now.entries) }
{
    rows.len()
}

fn waits_at(rows: &IndexMap<TaskId, TaskRow>, place: usize) -> bool
    ensures { result ≡ waits_at (values_of rows.now.entries) place }
{
    match rows.get_index(place) {
        Some((_, row)) => waits(row.status),
        None => false,
    }
}

// Keeps the places of those that still wait.
fn clean(rows: &IndexMap<TaskId, TaskRow>, places: &mut Vec<usize>)
    ensures { places.new.items ≡ filter (waits_at (values_of rows.now.entries)) places.old.items }
{
    places.retain(|place| waits_at(rows, *place));
}

/// Cleans the places where many statuses were set since it was done last, so that they are not many
/// more than those that wait. Answers how many were set since then.
pub fn cleaned(rows: &IndexMap<TaskId, TaskRow>, places: &mut Vec<usize>, changes: usize) -> usize
    ensures { (is_back : Bool) → AreListed (values_of rows.now.entries) places.old.items is_back → AreListed (values_of rows.now.entries) places.new.items is_back }
{
    if changes < SLACK + places.len() / 2 {
        return changes + 1;
    }
    clean(rows, places);
    0
}

// The row at a place, where its task waits.
fn waiting_row(rows: &IndexMap<TaskId, TaskRow>, place: usize) -> Option<&TaskRow>
    ensures { rows_in (option_copied result) ≡ if_waiting (slice_get (values_of rows.now.entries) place) }
{
    match rows.get_index(place) {
        Some((_, row)) if waits(row.status) => Some(row),
        _ => None,
    }
}

/// The rows of those at these places that wait.
pub fn waiting_among<'a>(
    alloc: Global,
    rows: &'a IndexMap<TaskId, TaskRow>,
    places: &[usize],
) -> Result<Vec<&'a TaskRow>, OutOfMemory>
    ensures { IfOk result (λ found. map (λ r. r.now) found.items ≡ waiting_at (values_of rows.now.entries) places.now) }
{
    let mut found = Vec::new(alloc);
    for place in places {
        if let Some(row) = waiting_row(rows, *place) {
            found.push(row)?;
        }
    }
    Ok(found)
}

/// The rows of all that wait.
pub fn all_waiting(
    alloc: Global,
    rows: &IndexMap<TaskId, TaskRow>,
) -> Result<Vec<&TaskRow>, OutOfMemory>
    ensures { IfOk result (λ found. map (λ r. r.now) found.items ≡ filter is_waiting (values_of rows.now.entries)) }
{
    let mut found = Vec::new(alloc);
    for place in 0..row_count(rows) {
        if let Some(row) = waiting_row(rows, place) {
            found.push(row)?;
        }
    }
    Ok(found)
}
