//! The tables of the book.
ghost use Rattle.std.specs.Prelude.{◌≡◌, IfSome, is_some};
ghost use Rattle.std.specs.Option.{option_copied};
ghost use Rattle.book_rows.specs.Answer.{empty_book};
ghost use Rattle.book_rows.specs.Grant.{counters_at, moment};
ghost use Rattle.book_rows.specs.Outcome.{task_of};

use book_rows::{Counters, TaskRow};
use iv_time::FIRST_INSTANT;
use lock_posse::Posses;
use seg_names::TaskId;
use std::alloc::Global;
use std::marker::Model;
use sup_core::Supervisors;
use tab_pending::Pendings;
use tab_segments::Segments;
use tab_streams::Streams;
use tab_tasks::Tasks;

/// The tables of a book, of which contracts see the whole book.
#[derive(Drop)]
pub struct Core {
    pub clock: i64,
    pub last: i64,
    pub next_lock: u64,
    pub tasks: Tasks,
    pub posses: Posses,
    pub segments: Segments,
    pub pendings: Pendings,
    pub streams: Streams,
    pub supervisors: Supervisors,
}

impl Model for Core {
    ghost use Rattle.book_rows.specs.declared.rows.Book.{Book};

    ghost Value = { Book };

    ghost view = { λ a. record { clock = a.clock; last = a.last; next_lock = a.next_lock; tasks = a.tasks; posses = a.posses; chunks = a.segments.chunks; segments = a.segments.segments; pendings = a.pendings.pendings; upgrades = a.pendings.upgrades; publications = a.streams.publications; offsets = a.streams.offsets; supervisors = a.supervisors.supervisors; sequences = a.supervisors.sequences } };
}

impl Core {
    /// The tables of the book without rows.
    pub fn new(alloc: Global) -> Core
        ensures { result ≡ empty_book }
    {
        Core {
            clock: FIRST_INSTANT,
            last: 0,
            next_lock: 1,
            tasks: Tasks::new(alloc),
            posses: Posses::new(alloc),
            segments: Segments::new(alloc),
            pendings: Pendings::new(alloc),
            streams: Streams::new(alloc),
            supervisors: Supervisors::new(alloc),
        }
    }

    /// The row of the task of an id.
    pub fn task(&self, task: &TaskId) -> Option<&TaskRow>
        ensures row { option_copied result ≡ task_of task.now self.now.tasks }
        ensures of_task { IfSome result (λ row. row.now.task ≡ task.now) }
    {
        self.tasks.get(task)
    }

    /// Whether there is a task of an id.
    pub fn has_task(&self, task: &TaskId) -> bool
        ensures { result ≡ is_some (task_of task.now self.now.tasks) }
    {
        self.tasks.get(task).is_some()
    }

    /// What requests are decided with at this moment.
    pub fn counters_at(&self, now: i64) -> Counters
        ensures { result ≡ counters_at self.now now }
    {
        Counters {
            clock: now.max(self.clock),
            last: self.last,
            next_lock: self.next_lock,
            since: self.streams.count(),
        }
    }

    /// Moves the clock on to the moment.
    pub fn at_moment(&mut self, now: i64)
        ensures { self.new ≡ record self.old { clock = moment self.old now } }
    {
        self.clock = now.max(self.clock);
    }
}
