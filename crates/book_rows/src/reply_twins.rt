//! Twins of replies: a function for each reply that owns names or lists.
ghost use Rattle.std.specs.Prelude.{◌≡◌, IfOk};
ghost use Rattle.book_rows.specs.declared.replies.Reply.TheVariants.{Submit, Manage, Lock, Allocate, ToReplace, End, Supervise, Tick, Paused, Checkpoint, Tasks, Locks, Timeline, Contents, Offsets, Sequences, Refused};

use crate::OutOfMemory;
use crate::items::{Items, Twin, twin_both};
use crate::kinds::{SeqState, TaskStatus};
use crate::replies::{
    ContentsPart, LockLine, OffsetLine, Refusal, Reply, SequenceLine, TaskLine, TimelinePart,
};
use crate::rows::Offset;
use iv_span::Span;
use seg_names::{Name, SegId, TaskId};
use std::alloc::Global;

impl Twin for TaskLine {
    fn twin(&self, alloc: Global) -> Result<TaskLine, OutOfMemory> {
        let (group, task) = twin_both(alloc, &self.group, &self.task)?;
        let source = self.source.twin(alloc)?;
        Ok(TaskLine {
            group,
            priority: self.priority,
            source,
            status: self.status,
            task,
        })
    }
}

impl Twin for LockLine {
    fn twin(&self, alloc: Global) -> Result<LockLine, OutOfMemory> {
        let (group, source) = twin_both(alloc, &self.group, &self.source)?;
        let members = self.members.twin(alloc)?;
        Ok(LockLine {
            group,
            lock: self.lock,
            members,
            priority: self.priority,
            revoked: self.revoked,
            source,
            span: self.span,
            lock_kind: self.lock_kind,
            version: self.version,
        })
    }
}

impl Twin for OffsetLine {
    fn twin(&self, alloc: Global) -> Result<OffsetLine, OutOfMemory> {
        Ok(OffsetLine {
            offset: self.offset,
            partition: self.partition,
            stream: self.stream.twin(alloc)?,
        })
    }
}

impl Twin for SequenceLine {
    fn twin(&self, alloc: Global) -> Result<SequenceLine, OutOfMemory> {
        let (ends, starts) = twin_both(alloc, &self.ends, &self.starts)?;
        let name = self.name.twin(alloc)?;
        Ok(SequenceLine {
            ends,
            name,
            starts,
            state: self.state,
        })
    }
}

impl Twin for TimelinePart {
    fn twin(&self, alloc: Global) -> Result<TimelinePart, OutOfMemory> {
        Ok(TimelinePart {
            span: self.span,
            version: self.version,
            ids: self.ids.twin(alloc)?,
        })
    }
}

impl Twin for ContentsPart {
    fn twin(&self, alloc: Global) -> Result<ContentsPart, OutOfMemory> {
        Ok(ContentsPart {
            span: self.span,
            roots: self.roots.twin(alloc)?,
        })
    }
}

fn submit_twin(alloc: Global, status: TaskStatus, task: &TaskId) -> Result<Reply, OutOfMemory>
    ensures { IfOk result (λ twin. twin ≡ Submit status task.now) }
{
    let task = task.twin(alloc)?;
    Ok(Reply::Submit { status, task })
}

fn manage_twin(
    alloc: Global,
    running: &Items<TaskId>,
    waiting: &Items<TaskId>,
) -> Result<Reply, OutOfMemory>
    ensures { IfOk result (λ twin. twin ≡ Manage running.now waiting.now) }
{
    let (running, waiting) = twin_both(alloc, running, waiting)?;
    Ok(Reply::Manage { running, waiting })
}

fn lock_twin(
    alloc: Global,
    lock: u64,
    revoked: &Items<u64>,
    span: Span,
    version: i64,
) -> Result<Reply, OutOfMemory>
    ensures { IfOk result (λ twin. twin ≡ Lock lock revoked.now span version) }
{
    let revoked = revoked.twin(alloc)?;
    Ok(Reply::Lock {
        lock,
        revoked,
        span,
        version,
    })
}

fn allocate_twin(
    alloc: Global,
    id: &SegId,
    lock: u64,
    revoked: &Items<u64>,
) -> Result<Reply, OutOfMemory>
    ensures { IfOk result (λ twin. twin ≡ Allocate id.now lock revoked.now) }
{
    let (id, revoked) = twin_both(alloc, id, revoked)?;
    Ok(Reply::Allocate { id, lock, revoked })
}

fn to_replace_twin(alloc: Global, ids: &Items<SegId>) -> Result<Reply, OutOfMemory>
    ensures { IfOk result (λ twin. twin ≡ ToReplace ids.now) }
{
    let ids = ids.twin(alloc)?;
    Ok(Reply::ToReplace { ids })
}

fn end_twin(alloc: Global, status: TaskStatus, task: &TaskId) -> Result<Reply, OutOfMemory>
    ensures { IfOk result (λ twin. twin ≡ End status task.now) }
{
    let task = task.twin(alloc)?;
    Ok(Reply::End { status, task })
}

fn supervise_twin(alloc: Global, source: &Name) -> Result<Reply, OutOfMemory>
    ensures { IfOk result (λ twin. twin ≡ Supervise source.now) }
{
    let source = source.twin(alloc)?;
    Ok(Reply::Supervise { source })
}

fn tick_twin(
    alloc: Global,
    abandoned: &Items<TaskId>,
    opened: &Items<TaskId>,
    paused: &Items<TaskId>,
) -> Result<Reply, OutOfMemory>
    ensures { IfOk result (λ twin. twin ≡ Tick abandoned.now opened.now paused.now) }
{
    let (abandoned, opened) = twin_both(alloc, abandoned, opened)?;
    let paused = paused.twin(alloc)?;
    Ok(Reply::Tick {
        abandoned,
        opened,
        paused,
    })
}

fn paused_twin(alloc: Global, ends: &Items<Offset>, state: SeqState) -> Result<Reply, OutOfMemory>
    ensures { IfOk result (λ twin. twin ≡ Paused ends.now state) }
{
    let ends = ends.twin(alloc)?;
    Ok(Reply::Paused { ends, state })
}

fn checkpoint_twin(
    alloc: Global,
    ends: &Items<Offset>,
    state: SeqState,
) -> Result<Reply, OutOfMemory>
    ensures { IfOk result (λ twin. twin ≡ Checkpoint ends.now state) }
{
    let ends = ends.twin(alloc)?;
    Ok(Reply::Checkpoint { ends, state })
}

fn tasks_twin(alloc: Global, tasks: &Items<TaskLine>) -> Result<Reply, OutOfMemory>
    ensures { IfOk result (λ twin. twin ≡ Tasks tasks.now) }
{
    let tasks = tasks.twin(alloc)?;
    Ok(Reply::Tasks { tasks })
}

fn locks_twin(alloc: Global, locks: &Items<LockLine>) -> Result<Reply, OutOfMemory>
    ensures { IfOk result (λ twin. twin ≡ Locks locks.now) }
{
    let locks = locks.twin(alloc)?;
    Ok(Reply::Locks { locks })
}

fn timeline_twin(
    alloc: Global,
    parts: &Items<TimelinePart>,
    source: &Name,
) -> Result<Reply, OutOfMemory>
    ensures { IfOk result (λ twin. twin ≡ Timeline parts.now source.now) }
{
    let (parts, source) = twin_both(alloc, parts, source)?;
    Ok(Reply::Timeline { parts, source })
}

fn contents_twin(
    alloc: Global,
    parts: &Items<ContentsPart>,
    source: &Name,
) -> Result<Reply, OutOfMemory>
    ensures { IfOk result (λ twin. twin ≡ Contents parts.now source.now) }
{
    let (parts, source) = twin_both(alloc, parts, source)?;
    Ok(Reply::Contents { parts, source })
}

fn offsets_twin(
    alloc: Global,
    offsets: &Items<OffsetLine>,
    source: &Name,
) -> Result<Reply, OutOfMemory>
    ensures { IfOk result (λ twin. twin ≡ Offsets offsets.now source.now) }
{
    let (offsets, source) = twin_both(alloc, offsets, source)?;
    Ok(Reply::Offsets { offsets, source })
}

fn sequences_twin(
    alloc: Global,
    sequences: &Items<SequenceLine>,
    source: &Name,
) -> Result<Reply, OutOfMemory>
    ensures { IfOk result (λ twin. twin ≡ Sequences sequences.now source.now) }
{
    let (sequences, source) = twin_both(alloc, sequences, source)?;
    Ok(Reply::Sequences { sequences, source })
}

fn refused_twin(alloc: Global, why: &Refusal) -> Result<Reply, OutOfMemory>
    ensures { IfOk result (λ twin. twin ≡ Refused why.now) }
{
    Ok(Reply::Refused(why.twin(alloc)?))
}

impl Twin for Reply {
    fn twin(&self, alloc: Global) -> Result<Reply, OutOfMemory> {
        match self {
            Reply::Submit { status, task } => submit_twin(alloc, *status, task),
            Reply::Manage { running, waiting } => manage_twin(alloc, running, waiting),
            Reply::Lock {
                lock,
                revoked,
                span,
                version,
            } => lock_twin(alloc, *lock, revoked, *span, *version),
            Reply::Unlock { left } => Ok(Reply::Unlock { left: *left }),
            Reply::Allocate { id, lock, revoked } => allocate_twin(alloc, id, *lock, revoked),
            Reply::Append { commit } => Ok(Reply::Append { commit: *commit }),
            Reply::Insert { commit } => Ok(Reply::Insert { commit: *commit }),
            Reply::Replace { commit } => Ok(Reply::Replace { commit: *commit }),
            Reply::Drop { commit } => Ok(Reply::Drop { commit: *commit }),
            Reply::Reset { commit } => Ok(Reply::Reset { commit: *commit }),
            Reply::ToReplace { ids } => to_replace_twin(alloc, ids),
            Reply::End { status, task } => end_twin(alloc, *status, task),
            Reply::Supervise { source } => supervise_twin(alloc, source),
            Reply::Tick {
                abandoned,
                opened,
                paused,
            } => tick_twin(alloc, abandoned, opened, paused),
            Reply::Paused { ends, state } => paused_twin(alloc, ends, *state),
            Reply::Checkpoint { ends, state } => checkpoint_twin(alloc, ends, *state),
            Reply::Tasks { tasks } => tasks_twin(alloc, tasks),
            Reply::Locks { locks } => locks_twin(alloc, locks),
            Reply::Timeline { parts, source } => timeline_twin(alloc, parts, source),
            Reply::Contents { parts, source } => contents_twin(alloc, parts, source),
            Reply::Offsets { offsets, source } => offsets_twin(alloc, offsets, source),
            Reply::Sequences { sequences, source } => sequences_twin(alloc, sequences, source),
            Reply::Refused(why) => refused_twin(alloc, why),
        }
    }
}
