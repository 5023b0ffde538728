//! The table.
ghost use Rattle.std.specs.Prelude.{◌≡◌, [], ◌∷◌, ◌++◌, IfOk, IsNone, IsSome, IsTrue, OnErr, OnOk, false, filter, length, map, true};
ghost use Rattle.std.specs.Option.{option_copied};
ghost use Rattle.book_rows.specs.declared.rows.PosseRow.{PosseRow};
ghost use Rattle.book_rows.specs.Grant.{posses_after};
ghost use Rattle.book_rows.specs.Lists.{ascending};
ghost use Rattle.book_rows.specs.Locks.{HasDistinctNumbers, after_leave, clear, ends, is_held, is_lost, is_member_of, is_valid_over, joined, least, locks_of, posse_of, revoked_at};
ghost use Rattle.lock_posse.specs.Granting.{AreNew};
ghost use Rattle.lock_posse.specs.Keys.{is_over};
ghost use Rattle.lock_posse.specs.Leaving.{ended_of, left_rows};

use crate::OutOfMemory;
use crate::changes::Revoking;
use crate::keys::Lock;
use crate::leaving::{leave_row, leave_rows, numbers_having, numbers_of};
use crate::over::{LockTest, Over};
use crate::queries::Numbered;
use crate::searches::{Held, Lost, Valid, has_member, sorted};
use crate::updates::{apply_granted, join_row};
use book_rows::{Clear, Granted, LockKind, PosseRow};
use iv_span::Span;
use row_table::RowTable;
use seg_names::{Name, TaskId};
use std::alloc::Global;
use std::collections::btree_map::Values;
use std::marker::Model;

/// Locks with distinct numbers, in the order in which they were added.
#[derive(Drop)]
pub struct Posses {
    alloc: Global,
    rows: RowTable<Lock>,
}

impl Model for Posses {
    ghost use Rattle.std.specs.Prelude.{List};
    ghost use Rattle.book_rows.specs.Locks.{HasDistinctNumbers};
    ghost use Rattle.book_rows.specs.declared.rows.PosseRow.{PosseRow};

    ghost Value = { List PosseRow };

    ghost view = { λ a. a.rows };

    ghost invariant = { λ a. HasDistinctNumbers a.rows };
}

impl Posses {
    /// No locks.
    pub fn new(alloc: Global) -> Posses
        ensures { result ≡ [] }
    {
        Posses {
            alloc,
            rows: RowTable::new(alloc),
        }
    }

    /// How many locks there are.
    pub fn count(&self) -> usize
        ensures { result ≡ length self.now }
    {
        self.rows.count()
    }

    /// The locks in row order, lent one by one.
    pub fn iter(&self) -> Values<'_, u64, Lock>
        ensures { result ≡ self.now }
    {
        self.rows.iter()
    }

    /// The lock of this number.
    pub fn get(&self, number: u64) -> Option<&PosseRow>
        ensures { option_copied result ≡ posse_of number self.now }
    {
        match self.rows.first(&Numbered { number }) {
            Some(lock) => Some(&lock.row),
            None => None,
        }
    }

    /// The lock of the least number that passes, where each that passes is of the source and
    /// overlaps the span.
    pub fn least_over<T: LockTest>(&self, source: &Name, span: Span, test: &T) -> Option<&PosseRow>
        requires { (p : PosseRow) → T.passes test.now p ≡ true → is_over source.now span p ≡ true }
        ensures { option_copied result ≡ least (T.passes test.now) self.now }
    {
        match self.rows.least(&Over { source, span, test }) {
            Some(lock) => Some(&lock.row),
            None => None,
        }
    }

    /// The numbers of the locks that pass, in row order, where each that passes is of the source
    /// and overlaps the span. The error is want of memory.
    pub fn numbers_over<T: LockTest>(
        &self,
        alloc: Global,
        source: &Name,
        span: Span,
        test: &T,
    ) -> Result<Vec<u64>, OutOfMemory>
        requires { (p : PosseRow) → T.passes test.now p ≡ true → is_over source.now span p ≡ true }
        ensures { IfOk result (λ v. v.items ≡ map (λ p. p.number) (filter (T.passes test.now) self.now)) }
    {
        let found = self.rows.all(alloc, &Over { source, span, test })?;
        numbers_of(alloc, found.as_slice())
    }

    /// The numbers of the valid locks of the source that overlap the span, in row order. The error
    /// is want of memory.
    pub fn valid_overlapping(
        &self,
        alloc: Global,
        source: &Name,
        span: Span,
    ) -> Result<Vec<u64>, OutOfMemory>
        ensures { IfOk result (λ v. v.items ≡ map (λ p. p.number) (filter (is_valid_over source.now span) self.now)) }
    {
        self.numbers_over(alloc, source, span, &Valid { source, span })
    }

    /// Whether there is a lock of this number with the task as a member.
    pub fn member_of(&self, number: u64, task: &TaskId) -> bool
        ensures { result ≡ is_member_of (posse_of number self.now) task.now }
    {
        match self.get(number) {
            Some(row) => has_member(row, task),
            None => false,
        }
    }

    /// The numbers of the locks that have the task as a member, valid or revoked, ascending. The
    /// error is want of memory.
    pub fn of_member(&self, alloc: Global, task: &TaskId) -> Result<Vec<u64>, OutOfMemory>
        ensures { IfOk result (λ v. v.items ≡ ascending (locks_of task.now self.now)) }
    {
        sorted(numbers_having(alloc, &self.rows, task)?)
    }

    fn least_lost(&self, task: &TaskId, source: &Name, span: Span) -> Option<&PosseRow>
        ensures { option_copied result ≡ least (is_lost task.now source.now span) self.now }
    {
        self.least_over(source, span, &Lost { task, source, span })
    }

    fn least_held(
        &self,
        task: &TaskId,
        source: &Name,
        span: Span,
        lock_kind: LockKind,
    ) -> Option<&PosseRow>
        ensures { option_copied result ≡ least (is_held task.now source.now span lock_kind) self.now }
    {
        // The span isn't empty, so what contains it overlaps it.
        let _start = span.start();
        let held = Held {
            task,
            source,
            span,
            lock_kind,
        };
        self.least_over(source, span, &held)
    }

    /// Whether the task may publish in the span: it lost a lock that overlaps it, or holds one of
    /// the kind that contains it, or neither. Where there are several, it is the least.
    pub fn clear(&self, task: &TaskId, source: &Name, span: Span, lock_kind: LockKind) -> Clear
        ensures { result ≡ clear self.now task.now source.now span lock_kind }
    {
        if let Some(lost) = self.least_lost(task, source, span) {
            return Clear::Revoked(lost.number);
        }
        match self.least_held(task, source, span, lock_kind) {
            Some(held) => Clear::Held(held.number),
            None => Clear::Missing,
        }
    }

    /// Adds a lock of a new number. The error is want of memory.
    pub fn add(&mut self, row: PosseRow) -> Result<(), OutOfMemory>
        requires { IsNone (posse_of row.number self.old) }
        ensures ok { OnOk result (self.new ≡ self.old ++ row ∷ []) }
        ensures err { OnErr result (self.new ≡ self.old) }
    {
        self.rows.push(Lock { row })
    }

    /// Adds the task, which is no member yet, to the lock of this number. The error is want of
    /// memory.
    pub fn join(&mut self, number: u64, task: TaskId) -> Result<(), OutOfMemory>
        requires there { IsSome (posse_of number self.old) }
        requires other { is_member_of (posse_of number self.old) task ≡ false }
        ensures ok { OnOk result (self.new ≡ map (joined number task) self.old) }
        ensures err { OnErr result (self.new ≡ self.old) }
    {
        join_row(self.alloc, &mut self.rows, number, task)
    }

    /// Revokes the lock of this number.
    pub fn revoke(&mut self, number: u64)
        ensures { self.new ≡ map (revoked_at number) self.old }
    {
        self.rows.change_all(&Revoking { number });
    }

    /// Takes the task, which is a member, from the lock of this number. Answers whether the lock
    /// ended with it, and is gone.
    pub fn leave(&mut self, number: u64, task: &TaskId) -> bool
        requires { IsTrue (is_member_of (posse_of number self.old) task.now) }
        ensures answer { result ≡ ends number task.now self.old }
        ensures rows { self.new ≡ after_leave number task.now self.old }
    {
        leave_row(&mut self.rows, number, task)
    }

    /// Takes the task from all locks that have it as a member. Answers the numbers of those that
    /// ended with it, and are gone. The error is want of memory.
    pub fn leave_all(&mut self, alloc: Global, task: &TaskId) -> Result<Vec<u64>, OutOfMemory>
        ensures ended { IfOk result (λ v. v.items ≡ ended_of (locks_of task.now self.old) task.now self.old) }
        ensures rows { OnOk result (self.new ≡ left_rows (locks_of task.now self.old) task.now self.old) }
        ensures err { OnErr result (self.new ≡ self.old) }
    {
        leave_rows(alloc, &mut self.rows, task)
    }

    /// Does what was granted to the task: revokes, joins and adds locks of new numbers. The error is
    /// want of memory.
    pub fn change(
        &mut self,
        alloc: Global,
        granted: &Granted,
        task: &TaskId,
    ) -> Result<(), OutOfMemory>
        requires { AreNew granted.now.rows self.old }
        ensures ok { OnOk result (self.new ≡ posses_after self.old task.now granted.now) }
        ensures err { OnErr result (self.new ≡ self.old) }
    {
        apply_granted(alloc, &mut self.rows, granted, task)
    }
}
