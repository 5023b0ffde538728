//! The core as a whole.
ghost use Rattle.std.specs.Prelude.{◌≡◌, IfOk, IsErr, None, OnErr, Some, length, true};
ghost use Rattle.std.specs.Option.{ForSome};
ghost use Rattle.book_rows.specs.Answer.{empty_book, step};
ghost use Rattle.book_rows.specs.Form.{KeepsForm};
ghost use Rattle.book_rows.specs.Fits.{reply_fits};
ghost use Rattle.book_rows.specs.Sound.{Sound};
ghost use Rattle.book_core.specs.Done.{IsDone};
ghost use Rattle.overlord_core.specs.Acted.{IsActed};

use crate::publishing::appending::append;
use crate::publishing::dropping::drop_within;
use crate::publishing::filling::fill;
use crate::resets::reset;
use crate::shows::{ask, show};
use crate::supervising::{report, supervised, supervisor_row};
use crate::ticking::tick;
use book_core::{Core, IdRequest, OutOfMemory, Outcome, Publish};
use book_rows::Command;
use publish_core::Filling;
use std::alloc::{AllocError, Global};
use std::marker::Model;

fn step(core: &mut Core, alloc: Global, command: &Command) -> Result<Outcome, OutOfMemory>
    requires form { KeepsForm command.now }
    requires sound { Sound core.old }
    ensures { IfOk result (λ o. IsDone o core.new (step core.old command.now)) }
{
    match command {
        Command::Submit {
            task,
            group,
            source,
            kind,
            priority,
            locks,
        } => core.submit(alloc, task, group, source, *kind, *priority, locks),
        Command::Manage { now } => core.manage(alloc, *now),
        Command::Lock {
            task,
            lock_kind,
            span,
            now,
        } => core.lock(alloc, task, *lock_kind, *span, *now),
        Command::Unlock { task, lock } => Ok(core.unlocked(task, *lock)),
        Command::Allocate {
            task,
            lock_kind,
            sequence,
            previous,
            at,
            granularity,
            now,
        } => core.allocate(
            alloc,
            task,
            &IdRequest {
                lock_kind: *lock_kind,
                sequence,
                previous: previous.as_ref(),
                at: *at,
                granularity: *granularity,
                moment: *now,
            },
        ),
        Command::Append { task, ids, ranges } => {
            append(core, alloc, task, ids.as_slice(), ranges)
        }
        Command::Insert {
            task,
            spans,
            ids,
            tombstones,
            ranges,
        } => fill(
            core,
            alloc,
            Filling::Inserting,
            task,
            &Publish {
                spans: spans.as_slice(),
                ids: ids.as_slice(),
                tombstones: tombstones.as_slice(),
                ranges,
            },
        ),
        Command::Replace {
            task,
            spans,
            ids,
            tombstones,
            ranges,
        } => fill(
            core,
            alloc,
            Filling::Replacing,
            task,
            &Publish {
                spans: spans.as_slice(),
                ids: ids.as_slice(),
                tombstones: tombstones.as_slice(),
                ranges,
            },
        ),
        Command::End { task, status } => core.end_of_task(alloc, task, *status),
        Command::Drop { source, span } => drop_within(core, alloc, source, *span),
        Command::Reset {
            source,
            stream,
            offsets,
        } => reset(core, alloc, source, stream, offsets.as_slice()),
        Command::Supervise {
            source,
            stream,
            partitions,
            task_count,
            replicas,
            task_duration,
            completion_timeout,
        } => supervised(
            core,
            alloc,
            supervisor_row(
                alloc,
                source,
                stream,
                *partitions,
                *task_count,
                *replicas,
                *task_duration,
                *completion_timeout,
            )?,
        ),
        Command::Tick { now } => tick(core, alloc, *now),
        Command::Paused { task, offsets } => {
            report(core, alloc, task, offsets.as_slice(), false)
        }
        Command::Checkpoint { task, offsets } => {
            report(core, alloc, task, offsets.as_slice(), true)
        }
        Command::ToReplace { task, span } => ask(core, alloc, task, *span),
        Command::Show { what } => show(core, alloc, what),
    }
}

/// The book, and what decides commands on it. It is spent once memory ran out in a command.
///
/// A contract sees its book, or none where it is spent. The book is sound.
#[derive(Drop)]
pub struct Overlord {
    core: Core,
    spent: bool,
}

impl Model for Overlord {
    ghost use Rattle.std.specs.Prelude.{◌≡◌, None, Option, Some, cond, false};
    ghost use Rattle.book_rows.specs.declared.rows.Book.{Book};
    ghost use Rattle.book_rows.specs.Sound.{Sound};

    ghost Value = { Option Book };

    ghost view = { λ a. cond a.spent None (Some a.core) };

    ghost invariant = { λ a. a.spent ≡ false → Sound a.core };
}

impl Overlord {
    /// The core of the book without rows. The error is want of memory.
    pub fn new(alloc: Global) -> Result<Overlord, OutOfMemory>
        ensures { IfOk result (λ o. o ≡ Some empty_book) }
    {
        Ok(Overlord {
            core: Core::new(alloc),
            spent: false,
        })
    }

    /// Does a command. The error is want of memory: after it nothing is known of the book, and
    /// every later call answers it again.
    pub fn act(&mut self, alloc: Global, command: &Command) -> Result<Outcome, OutOfMemory>
        requires form { KeepsForm command.now }
        ensures done { IfOk result (λ o. ForSome self.old (λ b. IsActed o self.new b command.now)) }

        // Each instant that the reply names has a text.
        ensures fits { IfOk result (λ o. reply_fits o.reply ≡ true) }

        // All rules hold that every reached book has.
        ensures sound { ForSome self.new (λ b. Sound b) }
        ensures lost { OnErr result (self.new ≡ None) }
        ensures spent { self.old ≡ None → IsErr result }
    {
        if self.spent {
            return Err(AllocError);
        }
        match step(&mut self.core, alloc, command) {
            Ok(outcome) => Ok(outcome),
            Err(error) => {
                self.spent = true;
                Err(error)
            }
        }
    }

    /// How many publications there are. Of a core that is spent nothing is known.
    pub fn commits(&self) -> u64
        ensures { ForSome self.now (λ b. result ≡ length b.publications) }
    {
        self.core.streams.count()
    }
}
