//! Replies as JSON.
ghost use Rattle.std.specs.Prelude.{◌≡◌, true, ◌&&◌, IfOk, List};
ghost use Rattle.std.specs.List.{list_all};
ghost use Rattle.serde_json.specs.View.{view};
ghost use Rattle.iv_time.specs.Range.{is_instant};
ghost use Rattle.reply_text.specs.Lines.{commit_data, report_data, data_of};
ghost use Rattle.book_rows.specs.Fits.{id_fits, span_fits, lock_fits, timeline_fits, contents_fits, reply_fits};
ghost use Rattle.book_rows.specs.declared.replies.Reply.TheVariants.{Submit, Manage, Lock, Unlock, Allocate, ToReplace, End, Supervise, Tick, Tasks, Locks, Timeline, Contents, Offsets, Sequences};

use crate::OutOfMemory;
use crate::object::Object;
use crate::shown::Shown;
use crate::words::{of_state, of_status};
use book_rows::{
    ContentsPart, LockLine, Offset, OffsetLine, Reply, SeqState, SequenceLine, TaskLine,
    TaskStatus, TimelinePart,
};
use iv_span::Span;
use seg_names::{Name, SegId, TaskId};
use serde_json::Value;
use std::alloc::Global;

fn submitted(alloc: Global, status: TaskStatus, task: &TaskId) -> Result<Value, OutOfMemory>
    ensures { IfOk result (λ value. view value ≡ data_of (Submit status task.now)) }
{
    Ok(
        Object::new(alloc)
            .text("ok", "submit")?
            .text("status", of_status(status))?
            .text("task", task.as_str())?
            .value(),
    )
}

#[tactic(auto, using(crate::proofs::Fits::all_fit))]
fn managed(alloc: Global, running: &[TaskId], waiting: &[TaskId]) -> Result<Value, OutOfMemory>
    ensures { IfOk result (λ value. view value ≡ data_of (Manage running.now waiting.now)) }
{
    Ok(
        Object::new(alloc)
            .text("ok", "manage")?
            .parts("running", running)?
            .parts("waiting", waiting)?
            .value(),
    )
}

#[tactic(auto, using(crate::proofs::Fits::all_fit))]
fn locked(
    alloc: Global,
    lock: u64,
    revoked: &[u64],
    span: Span,
    version: i64,
) -> Result<Value, OutOfMemory>
    requires span { span_fits span ≡ true }
    requires version { is_instant version ≡ true }
    ensures { IfOk result (λ value. view value ≡ data_of (Lock lock revoked.now span version)) }
{
    Ok(
        Object::new(alloc)
            .count("lock", lock)?
            .text("ok", "lock")?
            .parts("revoked", revoked)?
            .span("span", span)?
            .instant("version", version)?
            .value(),
    )
}

fn unlocked(alloc: Global, left: bool) -> Result<Value, OutOfMemory>
    ensures { IfOk result (λ value. view value ≡ data_of (Unlock left)) }
{
    Ok(
        Object::new(alloc)
            .flag("left", left)?
            .text("ok", "unlock")?
            .value(),
    )
}

#[tactic(auto, using(crate::proofs::Fits::all_fit))]
fn allocated(alloc: Global, id: &SegId, lock: u64, revoked: &[u64]) -> Result<Value, OutOfMemory>
    requires { id_fits id.now ≡ true }
    ensures { IfOk result (λ value. view value ≡ data_of (Allocate id.now lock revoked.now)) }
{
    Ok(
        Object::new(alloc)
            .part("id", id)?
            .count("lock", lock)?
            .text("ok", "allocate")?
            .parts("revoked", revoked)?
            .value(),
    )
}

fn published(alloc: Global, word: &str, commit: u64) -> Result<Value, OutOfMemory>
    ensures { IfOk result (λ value. view value ≡ commit_data word.now commit) }
{
    Ok(
        Object::new(alloc)
            .count("commit", commit)?
            .text("ok", word)?
            .value(),
    )
}

fn to_replace(alloc: Global, ids: &[SegId]) -> Result<Value, OutOfMemory>
    requires { list_all id_fits ids.now ≡ true }
    ensures { IfOk result (λ value. view value ≡ data_of (ToReplace ids.now)) }
{
    Ok(
        Object::new(alloc)
            .parts("ids", ids)?
            .text("ok", "to_replace")?
            .value(),
    )
}

fn ended(alloc: Global, status: TaskStatus, task: &TaskId) -> Result<Value, OutOfMemory>
    ensures { IfOk result (λ value. view value ≡ data_of (End status task.now)) }
{
    Ok(
        Object::new(alloc)
            .text("ok", "end")?
            .text("status", of_status(status))?
            .text("task", task.as_str())?
            .value(),
    )
}

fn supervised(alloc: Global, source: &Name) -> Result<Value, OutOfMemory>
    ensures { IfOk result (λ value. view value ≡ data_of (Supervise source.now)) }
{
    Ok(
        Object::new(alloc)
            .text("ok", "supervise")?
            .text("source", source.as_str())?
            .value(),
    )
}

#[tactic(auto, using(crate::proofs::Fits::all_fit))]
fn ticked(
    alloc: Global,
    abandoned: &[TaskId],
    opened: &[TaskId],
    paused: &[TaskId],
) -> Result<Value, OutOfMemory>
    ensures { IfOk result (λ value. view value ≡ data_of (Tick abandoned.now opened.now paused.now)) }
{
    Ok(
        Object::new(alloc)
            .parts("abandoned", abandoned)?
            .text("ok", "tick")?
            .parts("opened", opened)?
            .parts("paused", paused)?
            .value(),
    )
}

#[tactic(auto, using(crate::proofs::Fits::all_fit))]
fn reported(
    alloc: Global,
    word: &str,
    ends: &[Offset],
    state: SeqState,
) -> Result<Value, OutOfMemory>
    ensures { IfOk result (λ value. view value ≡ report_data word.now ends.now state) }
{
    Ok(
        Object::new(alloc)
            .parts("ends", ends)?
            .text("ok", word)?
            .text("state", of_state(state))?
            .value(),
    )
}

#[tactic(auto, using(crate::proofs::Fits::all_fit))]
fn tasks(alloc: Global, tasks: &[TaskLine]) -> Result<Value, OutOfMemory>
    ensures { IfOk result (λ value. view value ≡ data_of (Tasks tasks.now)) }
{
    Ok(
        Object::new(alloc)
            .text("ok", "tasks")?
            .parts("tasks", tasks)?
            .value(),
    )
}

fn locks(alloc: Global, locks: &[LockLine]) -> Result<Value, OutOfMemory>
    requires { list_all lock_fits locks.now ≡ true }
    ensures { IfOk result (λ value. view value ≡ data_of (Locks locks.now)) }
{
    Ok(
        Object::new(alloc)
            .parts("locks", locks)?
            .text("ok", "locks")?
            .value(),
    )
}

fn timeline(alloc: Global, parts: &[TimelinePart], source: &Name) -> Result<Value, OutOfMemory>
    requires { list_all timeline_fits parts.now ≡ true }
    ensures { IfOk result (λ value. view value ≡ data_of (Timeline parts.now source.now)) }
{
    Ok(
        Object::new(alloc)
            .text("ok", "timeline")?
            .parts("parts", parts)?
            .text("source", source.as_str())?
            .value(),
    )
}

fn contents(alloc: Global, parts: &[ContentsPart], source: &Name) -> Result<Value, OutOfMemory>
    requires { list_all contents_fits parts.now ≡ true }
    ensures { IfOk result (λ value. view value ≡ data_of (Contents parts.now source.now)) }
{
    Ok(
        Object::new(alloc)
            .text("ok", "contents")?
            .parts("parts", parts)?
            .text("source", source.as_str())?
            .value(),
    )
}

#[tactic(auto, using(crate::proofs::Fits::all_fit))]
fn offsets(alloc: Global, offsets: &[OffsetLine], source: &Name) -> Result<Value, OutOfMemory>
    ensures { IfOk result (λ value. view value ≡ data_of (Offsets offsets.now source.now)) }
{
    Ok(
        Object::new(alloc)
            .parts("offsets", offsets)?
            .text("ok", "offsets")?
            .text("source", source.as_str())?
            .value(),
    )
}

#[tactic(auto, using(crate::proofs::Fits::all_fit))]
fn sequences(alloc: Global, sequences: &[SequenceLine], source: &Name) -> Result<Value, OutOfMemory>
    ensures { IfOk result (λ value. view value ≡ data_of (Sequences sequences.now source.now)) }
{
    Ok(
        Object::new(alloc)
            .text("ok", "sequences")?
            .parts("sequences", sequences)?
            .text("source", source.as_str())?
            .value(),
    )
}

impl Shown for Reply {
    ghost data_of = { data_of };

    ghost fits = { reply_fits };

    fn to_json(&self, alloc: Global) -> Result<Value, OutOfMemory> {
        match self {
            Reply::Submit { status, task } => submitted(alloc, *status, task),
            Reply::Manage { running, waiting } => {
                managed(alloc, running.as_slice(), waiting.as_slice())
            }
            Reply::Lock {
                lock,
                revoked,
                span,
                version,
            } => { locked(alloc, *lock, revoked.as_slice(), *span, *version) }
            Reply::Unlock { left } => unlocked(alloc, *left),
            Reply::Allocate { id, lock, revoked } => {
                allocated(alloc, id, *lock, revoked.as_slice())
            }
            Reply::Append { commit } => published(alloc, "append", *commit),
            Reply::Insert { commit } => published(alloc, "insert", *commit),
            Reply::Replace { commit } => published(alloc, "replace", *commit),
            Reply::Drop { commit } => published(alloc, "drop", *commit),
            Reply::Reset { commit } => published(alloc, "reset", *commit),
            Reply::ToReplace { ids } => to_replace(alloc, ids.as_slice()),
            Reply::End { status, task } => ended(alloc, *status, task),
            Reply::Supervise { source } => supervised(alloc, source),
            Reply::Tick {
                abandoned,
                opened,
                paused,
            } => {
                ticked(
                    alloc,
                    abandoned.as_slice(),
                    opened.as_slice(),
                    paused.as_slice(),
                )
            }
            Reply::Paused { ends, state } => reported(alloc, "paused", ends.as_slice(), *state),
            Reply::Checkpoint { ends, state } => {
                reported(alloc, "checkpoint", ends.as_slice(), *state)
            }
            Reply::Tasks { tasks: lines } => tasks(alloc, lines.as_slice()),
            Reply::Locks { locks: lines } => locks(alloc, lines.as_slice()),
            Reply::Timeline { parts, source } => timeline(alloc, parts.as_slice(), source),
            Reply::Contents { parts, source } => contents(alloc, parts.as_slice(), source),
            Reply::Offsets {
                offsets: lines,
                source,
            } => offsets(alloc, lines.as_slice(), source),
            Reply::Sequences {
                sequences: lines,
                source,
            } => { sequences(alloc, lines.as_slice(), source) }
            Reply::Refused(why) => why.to_json(alloc),
        }
    }
}
