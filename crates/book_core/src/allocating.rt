//! `allocate`.
ghost use Rattle.std.specs.Prelude.{◌≡◌, IfOk, IsSome, List, OnOk, [], false, map, true, unwrap_or, ℕ};
ghost use Rattle.std.specs.Option.{option_copied};
ghost use Rattle.iv_time.specs.Range.{is_instant};
ghost use Rattle.book_rows.specs.Allocation.{allotted, allotted_id, known_pending, place};
ghost use Rattle.book_rows.specs.LockSteps.{allocated, pending_for};
ghost use Rattle.book_rows.specs.Locks.{is_member_of, joined, posse_of};
ghost use Rattle.book_rows.specs.Outcome.{running, task_of};
ghost use Rattle.book_rows.specs.Sound.{Sound};
ghost use Rattle.book_rows.specs.declared.replies.Reply.TheVariants.{Allocate};
ghost use Rattle.seg_alloc.specs.Answers.{IsKnown, IsPlaced, known_answer};
ghost use Rattle.lockbox.specs.Decided.{if_room};
ghost use Rattle.book_core.specs.Allocations.{IsMade, MayAllot, given_id, id_in, id_outcome, id_under, join_id, made_id, new_id, request_of, room_under};
ghost use Rattle.book_core.specs.Done.{IsDone};

use crate::OutOfMemory;
use crate::outcomes::{
    Outcome, changed, known_refusal, lock_refusal, place_refusal, refused, repeated,
};
use crate::tables::Core;
use crate::twins::twin_both;
use book_rows::{
    GrantedLock, Items, LockKind, NewPending, Place, Refusal, Reply, Table, TaskRow, TaskStatus,
    Want,
};
use iv_time::Granularity;
use seg_alloc::{AllotFault, KnownFault, PlaceFault};
use seg_names::{Name, SegId, TaskId};
use std::alloc::{AllocError, Global};

/// What a task asks for with `allocate`.
#[derive(Drop)]
pub struct IdRequest<'a> {
    pub lock_kind: LockKind,
    pub sequence: &'a Name,
    pub previous: Option<&'a SegId>,
    pub at: i64,
    pub granularity: Granularity,
    pub moment: i64,
}

/// A new id as it was decided: the lock that is granted for it, and its pending.
#[derive(Drop)]
pub struct NewId {
    pub lock: GrantedLock,
    pub pending: NewPending,
}

// No lock is revoked for an id that is known.
fn known_reply(alloc: Global, id: SegId, lock: u64) -> Reply
    ensures { result ≡ Allocate id lock [] }
{
    Reply::Allocate {
        id,
        lock,
        revoked: Items::new(alloc),
    }
}

// The reply has what was revoked for the lock, which goes otherwise.
fn new_reply(id: SegId, number: u64, lock: GrantedLock) -> Reply
    ensures { result ≡ Allocate id number lock.granted.revoked }
{
    Reply::Allocate {
        id,
        lock: number,
        revoked: lock.granted.revoked,
    }
}

fn twin_of(alloc: Global, id: Option<&SegId>) -> Result<Option<SegId>, OutOfMemory>
    ensures { IfOk result (λ twin. twin ≡ option_copied id.entry) }
{
    match id {
        Some(id) => Ok(Some(id.twin(alloc)?)),
        None => Ok(None),
    }
}

// A place without a version takes that of the lock.
fn version_in(place: &Place, lock: &GrantedLock) -> i64
    ensures { result ≡ unwrap_or place.now.version lock.now.version }
{
    match place.version {
        Some(version) => version,
        None => lock.version,
    }
}

fn pending_for(
    alloc: Global,
    row: &TaskRow,
    request: &IdRequest<'_>,
    place: &Place,
    lock: &GrantedLock,
) -> Result<NewPending, OutOfMemory>
    ensures { IfOk result (λ n. n ≡ pending_for row.now (request_of request.now) place.now lock.now) }
{
    let previous = twin_of(alloc, request.previous)?;
    match twin_both(alloc, &row.source, request.sequence) {
        Ok((source, sequence)) => Ok(NewPending {
            source,
            span: place.span,
            version: version_in(place, lock),
            posse: lock.number,
            sequence,
            previous,
        }),
        Err(error) => {
            drop(previous);
            Err(error)
        }
    }
}

impl Core {
    // The id that was allocated for the same request, with its lock.
    fn known_id(
        &self,
        alloc: Global,
        row: &TaskRow,
        request: &IdRequest<'_>,
    ) -> Result<Option<(SegId, u64)>, KnownFault>
        ensures { IsKnown result (known_answer (known_pending self.now.pendings row.now.source request.now.sequence.now (option_copied request.now.previous)) self.now.posses row.now request.now.lock_kind request.now.at) }
    {
        seg_alloc::known(
            alloc,
            &self.pendings,
            &self.posses,
            row,
            request.lock_kind,
            request.sequence,
            request.previous,
            request.at,
        )
    }

    fn join(&mut self, alloc: Global, lock: u64, task: &TaskId) -> Result<(), OutOfMemory>
        requires there { IsSome (posse_of lock self.old.posses) }
        requires other { is_member_of (posse_of lock self.old.posses) task.now ≡ false }
        ensures { OnOk result (self.new ≡ record self.old { posses = map (joined lock task.now) self.old.posses }) }
    {
        self.posses.join(lock, task.twin(alloc)?)
    }

    // Answers an id that is known. The task joins its lock where it is no member yet.
    fn join_id(
        &mut self,
        alloc: Global,
        id: SegId,
        lock: u64,
        task: &TaskId,
        request: &IdRequest<'_>,
    ) -> Result<Outcome, OutOfMemory>
        requires { IsSome (posse_of lock self.old.posses) }
        ensures { IfOk result (λ o. IsDone o self.new (join_id self.old request.now.moment task.now id lock)) }
    {
        if self.has_member(lock, task) {
            return Ok(repeated(known_reply(alloc, id, lock)));
        }
        match self.join(alloc, lock, task) {
            Ok(()) => {
                self.at_moment(request.moment);
                Ok(changed(known_reply(alloc, id, lock)))
            }
            Err(error) => {
                drop(id);
                Err(error)
            }
        }
    }

    fn place_for(
        &self,
        alloc: Global,
        row: &TaskRow,
        request: &IdRequest<'_>,
    ) -> Result<Place, PlaceFault>
        requires { is_instant request.now.at ≡ true }
        ensures { IsPlaced request.now.at result (place self.now.segments self.now.pendings row.now.source request.now.at request.now.granularity) }
    {
        seg_alloc::choose(
            alloc,
            &self.segments,
            &self.pendings,
            &row.source,
            request.at,
            request.granularity,
        )
    }

    // The first table that would be too full after the id is allotted under the lock.
    fn room_for(&self, pending: &NewPending, lock: &GrantedLock) -> Option<Table>
        requires { Sound self.now }
        ensures { (task : List ℕ) → result ≡ room_under self.now task lock.now pending.now }
    {
        seg_alloc::room_for(
            &self.segments,
            &self.pendings,
            pending,
            lock.granted.revoked.as_slice(),
        )
    }

    // The new id, where there is room for it.
    fn if_room(&self, new: NewId) -> Result<NewId, Refusal>
        requires { Sound self.now }
        ensures { (task : List ℕ) → result ≡ if_room (room_under self.now task new.lock new.pending) new }
    {
        match self.room_for(&new.pending, &new.lock) {
            Some(table) => {
                drop(new);
                Err(Refusal::TableFull { table })
            }
            None => Ok(new),
        }
    }

    fn id_under(
        &self,
        alloc: Global,
        row: &TaskRow,
        request: &IdRequest<'_>,
        place: &Place,
        lock: GrantedLock,
    ) -> Result<Result<NewId, Refusal>, OutOfMemory>
        requires { Sound self.now }
        ensures { IfOk result (λ new. new ≡ id_under self.now (request_of request.now) row.now place.now lock) }
    {
        match pending_for(alloc, row, request, place, &lock) {
            Ok(pending) => Ok(self.if_room(NewId { lock, pending })),
            Err(error) => {
                drop(lock);
                Err(error)
            }
        }
    }

    fn id_in(
        &self,
        alloc: Global,
        row: &TaskRow,
        request: &IdRequest<'_>,
        place: &Place,
    ) -> Result<Result<NewId, Refusal>, OutOfMemory>
        requires sound { Sound self.now }
        requires instant { is_instant request.now.moment ≡ true }
        ensures { IfOk result (λ new. new ≡ id_in self.now (request_of request.now) row.now place.now) }
    {
        let want = Want {
            lock_kind: request.lock_kind,
            span: place.span,
        };
        match self.decided_lock(alloc, row, &want, request.moment) {
            Ok(lock) => self.id_under(alloc, row, request, place, lock),
            Err(fault) => Ok(Err(lock_refusal(fault)?)),
        }
    }

    // Decides a new id: its place, the lock on its span, and whether there is room. Nothing is
    // changed.
    fn new_id(
        &self,
        alloc: Global,
        row: &TaskRow,
        request: &IdRequest<'_>,
    ) -> Result<Result<NewId, Refusal>, OutOfMemory>
        requires sound { Sound self.now }
        requires at { is_instant request.now.at ≡ true }
        requires instant { is_instant request.now.moment ≡ true }
        ensures { IfOk result (λ new. new ≡ new_id self.now (request_of request.now) row.now) }
    {
        match self.place_for(alloc, row, request) {
            Ok(place) => self.id_in(alloc, row, request, &place),
            Err(fault) => Ok(Err(place_refusal(fault, request.at)?)),
        }
    }

    fn allot(&mut self, alloc: Global, pending: NewPending) -> Result<SegId, OutOfMemory>
        requires { MayAllot self.old pending }
        ensures id { IfOk result (λ id. id ≡ allotted_id self.old.chunks pending) }
        ensures after { OnOk result (self.new ≡ allotted pending self.old) }
    {
        match seg_alloc::allot(alloc, &mut self.segments, &mut self.pendings, pending) {
            Ok(id) => Ok(id),
            Err(AllotFault::OutOfMemory) => Err(AllocError),
            Err(AllotFault::Full(_)) => unreachable!(),
        }
    }

    // Gives the id to its pending, whose lock is granted by now.
    fn given_id(&mut self, alloc: Global, new: NewId) -> Result<Outcome, OutOfMemory>
        requires { MayAllot self.old new.pending }
        ensures { IfOk result (λ o. IsDone o self.new (given_id new self.old)) }
    {
        let NewId { lock, pending } = new;
        let number = pending.posse;
        match self.allot(alloc, pending) {
            Ok(id) => Ok(changed(new_reply(id, number, lock))),
            Err(error) => {
                drop(lock);
                Err(error)
            }
        }
    }

    fn made_id(&mut self, alloc: Global, new: NewId, task: &TaskId) -> Result<Outcome, OutOfMemory>
        requires sound { Sound self.old }
        requires made { IsMade self.old task.now new }
        ensures { IfOk result (λ o. IsDone o self.new (made_id self.old task.now new)) }
    {
        match self.book_granted(alloc, &new.lock.granted, task) {
            Ok(()) => self.given_id(alloc, new),
            Err(error) => {
                drop(new);
                Err(error)
            }
        }
    }

    // Does what was decided.
    fn done_id(
        &mut self,
        alloc: Global,
        decided: Result<NewId, Refusal>,
        task: &TaskId,
    ) -> Result<Outcome, OutOfMemory>
        requires sound { Sound self.old }
        requires made { IfOk decided (λ new. IsMade self.old task.now new) }
        ensures { IfOk result (λ o. IsDone o self.new (id_outcome decided self.old task.now)) }
    {
        match decided {
            Ok(new) => self.made_id(alloc, new, task),
            Err(why) => Ok(refused(why)),
        }
    }

    /// Allocates an id, or answers the one that was allocated for the same request.
    pub fn allocate(
        &mut self,
        alloc: Global,
        task: &TaskId,
        request: &IdRequest<'_>,
    ) -> Result<Outcome, OutOfMemory>
        requires sound { Sound self.old }
        requires at { is_instant request.now.at ≡ true }
        requires instant { is_instant request.now.moment ≡ true }
        ensures { IfOk result (λ o. IsDone o self.new (running (task_of task.now self.old.tasks) self.old (allocated self.old (request_of request.now)))) }
    {
        let Some(row) = self.task(task) else {
            return Ok(refused(Refusal::TaskUnknown));
        };
        if row.status != TaskStatus::Running {
            return Ok(refused(Refusal::TaskNotRunning { status: row.status }));
        }
        match self.known_id(alloc, row, request) {
            Ok(Some((id, lock))) => self.join_id(alloc, id, lock, task, request),
            Ok(None) => {
                let decided = self.new_id(alloc, row, request)?;
                self.done_id(alloc, decided, task)
            }
            Err(fault) => Ok(refused(known_refusal(fault)?)),
        }
    }
}
