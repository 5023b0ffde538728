//! The rows of the tasks, in a map that keeps the order in which they came.
ghost use Rattle.std.specs.Prelude.{◌≡◌, ◌++◌, ◌∷◌, [], None, filter, length, map, slice_get, IfOk, IfSome, OnOk, OnErr, IsSome};
ghost use Rattle.std.specs.Option.{option_copied};
ghost use Rattle.book_rows.specs.Outcome.{task_of};
ghost use Rattle.book_rows.specs.Shape.{AreDistinct, same_task};
ghost use Rattle.book_rows.specs.TaskSteps.{is_waiting, status_set};
ghost use Rattle.tab_tasks.specs.Entries.{set_in};

use crate::OutOfMemory;
use crate::waiting::{all_waiting, cleaned, is_back_after, row_count, waiting_among};
use book_rows::{TaskRow, TaskStatus};
use indexmap::IndexMap;
use seg_names::TaskId;
use std::alloc::Global;
use std::marker::Model;

/// The tasks, in the order in which they were added. No two have one id.
///
/// A contract sees the list of their rows.
#[derive(Drop)]
pub struct Tasks {
    rows: IndexMap<TaskId, TaskRow>,
    // The places of the tasks that wait, ascending. Some of those that waited may be among them.
    places: Vec<usize>,
    // How often a status was set since the places were cleaned.
    changes: usize,
    // Whether a task was set back to waiting, which no command does. Its place may be missing.
    is_back: bool,
}

impl Model for Tasks {
    ghost use Rattle.std.specs.Prelude.{List};
    ghost use Rattle.std.specs.Map.{values_of};
    ghost use Rattle.book_rows.specs.declared.rows.TaskRow.{TaskRow};
    ghost use Rattle.tab_tasks.specs.Entries.{IsKept};
    ghost use Rattle.tab_tasks.specs.Waiting.{AreListed};

    ghost Value = { List TaskRow };

    ghost view = { λ t. values_of t.rows.entries };

    ghost invariant = { λ t. IsKept t.rows.entries × AreListed (values_of t.rows.entries) t.places.items t.is_back };
}

fn set_status_in(rows: &mut IndexMap<TaskId, TaskRow>, task: &TaskId, status: TaskStatus)
    ensures { rows.new.entries ≡ set_in task.now status rows.old.entries }
{
    if let Some(row) = rows.get_mut(task) {
        row.status = status;
    }
}

impl Tasks {
    /// No tasks.
    pub fn new(alloc: Global) -> Tasks
        ensures { result ≡ [] }
    {
        Tasks {
            rows: IndexMap::new(alloc),
            places: Vec::new(alloc),
            changes: 0,
            is_back: false,
        }
    }

    /// The row of the task of this id.
    pub fn get(&self, task: &TaskId) -> Option<&TaskRow>
        ensures row { option_copied result ≡ task_of task.now self.now }
        ensures of_task { IfSome result (λ row. row.now.task ≡ task.now) }
    {
        self.rows.get(task)
    }

    /// How many tasks there are.
    pub fn count(&self) -> usize
        ensures count { result ≡ length self.now }
        ensures distinct { AreDistinct same_task self.now }
    {
        row_count(&self.rows)
    }

    /// The row at a place, from 0 on, in the order in which the tasks were added.
    pub fn row(&self, place: usize) -> Option<&TaskRow>
        ensures { option_copied result ≡ slice_get self.now place }
    {
        match self.rows.get_index(place) {
            Some((_, row)) => Some(row),
            None => None,
        }
    }

    /// Adds a row of a new id behind the others. The error is want of memory, and leaves the rows
    /// as they were.
    pub fn add(&mut self, row: TaskRow) -> Result<(), OutOfMemory>
        requires { task_of row.task self.old ≡ None }
        ensures ok { OnOk result (self.new ≡ self.old ++ row ∷ []) }
        ensures err { OnErr result (self.new ≡ self.old) }
    {
        let task = row.task.twin(*self.rows.allocator())?;
        self.places.reserve(1)?;
        let place = row_count(&self.rows);
        self.rows.insert(task, row)?;
        self.places.push_reserved(place);
        Ok(())
    }

    /// Sets the status of a task that is there.
    pub fn set_status(&mut self, task: &TaskId, status: TaskStatus)
        requires { IsSome (task_of task.now self.old) }
        ensures { self.new ≡ map (status_set task.now status) self.old }
    {
        set_status_in(&mut self.rows, task, status);
        self.is_back = is_back_after(self.is_back, status);
        self.changes = cleaned(&self.rows, &mut self.places, self.changes);
    }

    /// The rows of the tasks that wait, in the order in which they were added. It costs what waits,
    /// and not all that was added. The error is want of memory.
    pub fn waiting(&self, alloc: Global) -> Result<Vec<&TaskRow>, OutOfMemory>
        ensures { IfOk result (λ rows. map (λ r. r.now) rows.items ≡ filter is_waiting self.now) }
    {
        if self.is_back {
            return all_waiting(alloc, &self.rows);
        }
        waiting_among(alloc, &self.rows, &self.places)
    }
}
