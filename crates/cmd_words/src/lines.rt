//! Reading a line.
ghost use Rattle.std.specs.Prelude.{◌≡◌, true, IfOk};
ghost use Rattle.serde_json.specs.View.{view};
ghost use Rattle.book_rows.specs.Form.{keeps_form};
ghost use Rattle.cmd_words.specs.Reading.{Gives};
ghost use Rattle.cmd_words.specs.Lines.{reset_of, submit_from, submit_of, manage_of, lock_of, unlock_of, allocate_from, allocate_of, append_of, overwrite_of, insert_of, replace_of, drop_of, end_of, supervise_from, supervise_of, tick_of, told_of, paused_of, checkpoint_of, to_replace_of, what_of, show_source, show_all, show_by, show_of, command_by, command_of, CommandOf};

use crate::fault::LineFault;
use crate::lists::{ids, offsets, ranges, spans, tombstones, wants};
use crate::values::{
    count_or, duration_or, end_status, granularity, group, has_only_keys, instant, kind, lock_kind,
    lock_number, name, previous, priority, short_number, span, task, text,
};
use book_rows::{Command, Items, LockKind, Ranges, Report, What};
use command_forms::keeps_form;
use iv_span::Span;
use iv_time::Granularity;
use seg_names::{Name, SegId, TaskId};
use serde_json::Value;
use std::alloc::Global;

// What a supervisor has where its line leaves it out: tasks, and replicas of each; how long a sequence
// reads, and how long it may then wait to be published, in milliseconds.
const DEFAULT_COUNT: u32 = 1;

const DEFAULT_DURATION: i64 = 3_600_000;

const DEFAULT_TIMEOUT: i64 = 1_800_000;

#[tactic(auto, unfolding(crate::specs::Lines::reset_of))]
fn reset(alloc: Global, value: &Value) -> Result<Command, LineFault>
    ensures { Gives result (reset_of (view value.now)) }
{
    let source = name(alloc, value, "source")?;
    let stream = name(alloc, value, "stream")?;
    let offsets = offsets(alloc, value, "offsets")?;
    if !has_only_keys(value, &["do", "offsets", "source", "stream"]) {
        return Err(LineFault::BadCommand);
    }
    Ok(Command::Reset {
        source,
        stream,
        offsets,
    })
}

#[tactic(auto, unfolding(crate::specs::Lines::submit_from))]
fn submit_from(
    alloc: Global,
    task: TaskId,
    group: TaskId,
    source: Name,
    value: &Value,
) -> Result<Command, LineFault>
    ensures { Gives result (submit_from task group source (view value.now)) }
{
    let kind = kind(value, "kind")?;
    let priority = priority(value, kind)?;
    let locks = wants(alloc, value)?;
    if !has_only_keys(
        value,
        &["do", "group", "kind", "locks", "priority", "source", "task"],
    ) {
        return Err(LineFault::BadCommand);
    }
    Ok(Command::Submit {
        task,
        group,
        source,
        kind,
        priority,
        locks,
    })
}

#[tactic(auto, unfolding(crate::specs::Lines::submit_of))]
fn submit(alloc: Global, value: &Value) -> Result<Command, LineFault>
    ensures { Gives result (submit_of (view value.now)) }
{
    let task = task(alloc, value, "task")?;
    let group = group(alloc, value, &task)?;
    let source = name(alloc, value, "source")?;
    submit_from(alloc, task, group, source, value)
}

#[tactic(auto, unfolding(crate::specs::Lines::manage_of))]
fn manage(value: &Value) -> Result<Command, LineFault>
    ensures { Gives result (manage_of (view value.now)) }
{
    let now = instant(value, "now")?;
    if !has_only_keys(value, &["do", "now"]) {
        return Err(LineFault::BadCommand);
    }
    Ok(Command::Manage { now })
}

#[tactic(auto, unfolding(crate::specs::Lines::lock_of))]
fn lock(alloc: Global, value: &Value) -> Result<Command, LineFault>
    ensures { Gives result (lock_of (view value.now)) }
{
    let task = task(alloc, value, "task")?;
    let lock_kind = lock_kind(value, "type")?;
    let span = span(value, "span")?;
    let now = instant(value, "now")?;
    if !has_only_keys(value, &["do", "now", "span", "task", "type"]) {
        return Err(LineFault::BadCommand);
    }
    Ok(Command::Lock {
        task,
        lock_kind,
        span,
        now,
    })
}

#[tactic(auto, unfolding(crate::specs::Lines::unlock_of))]
fn unlock(alloc: Global, value: &Value) -> Result<Command, LineFault>
    ensures { Gives result (unlock_of (view value.now)) }
{
    let task = task(alloc, value, "task")?;
    let lock = lock_number(value, "lock")?;
    if !has_only_keys(value, &["do", "lock", "task"]) {
        return Err(LineFault::BadCommand);
    }
    Ok(Command::Unlock { task, lock })
}

#[tactic(auto, unfolding(crate::specs::Lines::allocate_from))]
fn allocate_from(
    alloc: Global,
    lock_kind: LockKind,
    at: i64,
    granularity: Granularity,
    now: i64,
    value: &Value,
) -> Result<Command, LineFault>
    ensures { Gives result (allocate_from lock_kind at granularity now (view value.now)) }
{
    let task = task(alloc, value, "task")?;
    let sequence = name(alloc, value, "sequence")?;
    let previous = previous(alloc, value)?;
    if !has_only_keys(
        value,
        &[
            "at",
            "do",
            "granularity",
            "now",
            "previous",
            "sequence",
            "task",
            "type",
        ],
    ) {
        return Err(LineFault::BadCommand);
    }
    Ok(Command::Allocate {
        task,
        lock_kind,
        sequence,
        previous,
        at,
        granularity,
        now,
    })
}

#[tactic(auto, unfolding(crate::specs::Lines::allocate_of))]
fn allocate(alloc: Global, value: &Value) -> Result<Command, LineFault>
    ensures { Gives result (allocate_of (view value.now)) }
{
    let lock_kind = lock_kind(value, "type")?;
    let at = instant(value, "at")?;
    let granularity = granularity(value, "granularity")?;
    let now = instant(value, "now")?;
    allocate_from(alloc, lock_kind, at, granularity, now, value)
}

#[tactic(auto, unfolding(crate::specs::Lines::append_of))]
fn append(alloc: Global, value: &Value) -> Result<Command, LineFault>
    ensures { Gives result (append_of (view value.now)) }
{
    let task = task(alloc, value, "task")?;
    let ids = ids(alloc, value, "ids")?;
    let ranges = ranges(alloc, value)?;
    if !has_only_keys(value, &["do", "ids", "ranges", "task"]) {
        return Err(LineFault::BadCommand);
    }
    Ok(Command::Append { task, ids, ranges })
}

/// What an `insert` or a `replace` names.
#[derive(Drop)]
pub struct Overwrite {
    /// The task that publishes.
    pub task: TaskId,
    /// The spans.
    pub spans: Items<Span>,
    /// The ids of segments.
    pub ids: Items<SegId>,
    /// The ids of segments without rows.
    pub tombstones: Items<SegId>,
    /// What was read of a stream, where anything was.
    pub ranges: Option<Ranges>,
}

#[tactic(auto, unfolding(crate::specs::Lines::overwrite_of))]
fn read_overwrite(alloc: Global, value: &Value) -> Result<Overwrite, LineFault>
    ensures { Gives result (overwrite_of (view value.now)) }
{
    let task = task(alloc, value, "task")?;
    let spans = spans(alloc, value, "spans")?;
    let ids = ids(alloc, value, "ids")?;
    let tombstones = tombstones(alloc, value)?;
    let ranges = ranges(alloc, value)?;
    if !has_only_keys(
        value,
        &["do", "ids", "ranges", "spans", "task", "tombstones"],
    ) {
        return Err(LineFault::BadCommand);
    }
    Ok(Overwrite {
        task,
        spans,
        ids,
        tombstones,
        ranges,
    })
}

#[tactic(auto, unfolding(crate::specs::Lines::insert_of))]
fn insert(alloc: Global, value: &Value) -> Result<Command, LineFault>
    ensures { Gives result (insert_of (view value.now)) }
{
    let Overwrite {
        task,
        spans,
        ids,
        tombstones,
        ranges,
    } = read_overwrite(alloc, value)?;
    Ok(Command::Insert {
        task,
        spans,
        ids,
        tombstones,
        ranges,
    })
}

#[tactic(auto, unfolding(crate::specs::Lines::replace_of))]
fn replace(alloc: Global, value: &Value) -> Result<Command, LineFault>
    ensures { Gives result (replace_of (view value.now)) }
{
    let Overwrite {
        task,
        spans,
        ids,
        tombstones,
        ranges,
    } = read_overwrite(alloc, value)?;
    Ok(Command::Replace {
        task,
        spans,
        ids,
        tombstones,
        ranges,
    })
}

#[tactic(auto, unfolding(crate::specs::Lines::drop_of))]
fn drop_span(alloc: Global, value: &Value) -> Result<Command, LineFault>
    ensures { Gives result (drop_of (view value.now)) }
{
    let source = name(alloc, value, "source")?;
    let span = span(value, "span")?;
    if !has_only_keys(value, &["do", "source", "span"]) {
        return Err(LineFault::BadCommand);
    }
    Ok(Command::Drop { source, span })
}

#[tactic(auto, unfolding(crate::specs::Lines::end_of))]
fn end(alloc: Global, value: &Value) -> Result<Command, LineFault>
    ensures { Gives result (end_of (view value.now)) }
{
    let task = task(alloc, value, "task")?;
    let status = end_status(value, "status")?;
    if !has_only_keys(value, &["do", "status", "task"]) {
        return Err(LineFault::BadCommand);
    }
    Ok(Command::End { task, status })
}

#[tactic(auto, unfolding(crate::specs::Lines::supervise_from))]
fn supervise_from(source: Name, stream: Name, value: &Value) -> Result<Command, LineFault>
    ensures { Gives result (supervise_from source stream (view value.now)) }
{
    let partitions = short_number(value, "partitions")?;
    let task_count = count_or(value, "taskCount", DEFAULT_COUNT)?;
    let replicas = count_or(value, "replicas", DEFAULT_COUNT)?;
    let task_duration = duration_or(value, "taskDuration", DEFAULT_DURATION)?;
    let completion_timeout = duration_or(value, "completionTimeout", DEFAULT_TIMEOUT)?;
    if !has_only_keys(
        value,
        &[
            "completionTimeout",
            "do",
            "partitions",
            "replicas",
            "source",
            "stream",
            "taskCount",
            "taskDuration",
        ],
    ) {
        return Err(LineFault::BadCommand);
    }
    Ok(Command::Supervise {
        source,
        stream,
        partitions,
        task_count,
        replicas,
        task_duration,
        completion_timeout,
    })
}

#[tactic(auto, unfolding(crate::specs::Lines::supervise_of))]
fn supervise(alloc: Global, value: &Value) -> Result<Command, LineFault>
    ensures { Gives result (supervise_of (view value.now)) }
{
    let source = name(alloc, value, "source")?;
    let stream = name(alloc, value, "stream")?;
    supervise_from(source, stream, value)
}

#[tactic(auto, unfolding(crate::specs::Lines::tick_of))]
fn tick(value: &Value) -> Result<Command, LineFault>
    ensures { Gives result (tick_of (view value.now)) }
{
    let now = instant(value, "now")?;
    if !has_only_keys(value, &["do", "now"]) {
        return Err(LineFault::BadCommand);
    }
    Ok(Command::Tick { now })
}

// What a `paused` or a `checkpoint` tells.
#[tactic(auto, unfolding(crate::specs::Lines::told_of))]
fn told(alloc: Global, value: &Value) -> Result<Report, LineFault>
    ensures { Gives result (told_of (view value.now)) }
{
    let task = task(alloc, value, "task")?;
    let offsets = offsets(alloc, value, "offsets")?;
    if !has_only_keys(value, &["do", "offsets", "task"]) {
        return Err(LineFault::BadCommand);
    }
    Ok(Report { task, offsets })
}

#[tactic(auto, unfolding(crate::specs::Lines::paused_of))]
fn paused(alloc: Global, value: &Value) -> Result<Command, LineFault>
    ensures { Gives result (paused_of (view value.now)) }
{
    let Report { task, offsets } = told(alloc, value)?;
    Ok(Command::Paused { task, offsets })
}

#[tactic(auto, unfolding(crate::specs::Lines::checkpoint_of))]
fn checkpoint(alloc: Global, value: &Value) -> Result<Command, LineFault>
    ensures { Gives result (checkpoint_of (view value.now)) }
{
    let Report { task, offsets } = told(alloc, value)?;
    Ok(Command::Checkpoint { task, offsets })
}

#[tactic(auto, unfolding(crate::specs::Lines::to_replace_of))]
fn to_replace(alloc: Global, value: &Value) -> Result<Command, LineFault>
    ensures { Gives result (to_replace_of (view value.now)) }
{
    let task = task(alloc, value, "task")?;
    let span = span(value, "span")?;
    if !has_only_keys(value, &["do", "span", "task"]) {
        return Err(LineFault::BadCommand);
    }
    Ok(Command::ToReplace { task, span })
}

fn what_of(word: &str, source: Name) -> Result<What, LineFault>
    ensures { Gives result (what_of word.now source) }
{
    match word {
        "timeline" => Ok(What::Timeline(source)),
        "contents" => Ok(What::Contents(source)),
        "offsets" => Ok(What::Offsets(source)),
        "sequences" => Ok(What::Sequences(source)),
        _ => Err(LineFault::BadCommand),
    }
}

#[tactic(auto, unfolding(crate::specs::Lines::show_source))]
fn show_source(alloc: Global, word: &str, value: &Value) -> Result<Command, LineFault>
    ensures { Gives result (show_source word.now (view value.now)) }
{
    let source = name(alloc, value, "source")?;
    let what = what_of(word, source)?;
    if !has_only_keys(value, &["do", "source", "what"]) {
        return Err(LineFault::BadCommand);
    }
    Ok(Command::Show { what })
}

fn show_all(value: &Value, what: What) -> Result<Command, LineFault>
    ensures { Gives result (show_all what (view value.now)) }
{
    if !has_only_keys(value, &["do", "what"]) {
        return Err(LineFault::BadCommand);
    }
    Ok(Command::Show { what })
}

fn show_by(alloc: Global, word: &str, value: &Value) -> Result<Command, LineFault>
    ensures { Gives result (show_by word.now (view value.now)) }
{
    match word {
        "tasks" => show_all(value, What::Tasks),
        "locks" => show_all(value, What::Locks),
        _ => show_source(alloc, word, value),
    }
}

#[tactic(auto, unfolding(crate::specs::Lines::show_of))]
fn show(alloc: Global, value: &Value) -> Result<Command, LineFault>
    ensures { Gives result (show_of (view value.now)) }
{
    let word = text(value, "what")?;
    show_by(alloc, word, value)
}

// The command whose word it is, which may break its form.
pub fn by_word(alloc: Global, word: &str, value: &Value) -> Result<Command, LineFault>
    ensures { Gives result (command_by word.now (view value.now)) }
{
    match word {
        "submit" => submit(alloc, value),
        "manage" => manage(value),
        "lock" => lock(alloc, value),
        "unlock" => unlock(alloc, value),
        "allocate" => allocate(alloc, value),
        "append" => append(alloc, value),
        "insert" => insert(alloc, value),
        "replace" => replace(alloc, value),
        "end" => end(alloc, value),
        "drop" => drop_span(alloc, value),
        "reset" => reset(alloc, value),
        "supervise" => supervise(alloc, value),
        "tick" => tick(value),
        "paused" => paused(alloc, value),
        "checkpoint" => checkpoint(alloc, value),
        "to_replace" => to_replace(alloc, value),
        "show" => show(alloc, value),
        _ => Err(LineFault::BadCommand),
    }
}

#[tactic(auto, unfolding(crate::specs::Lines::command_of))]
fn command(alloc: Global, value: &Value) -> Result<Command, LineFault>
    ensures read { Gives result (command_of (view value.now)) }
    ensures kept { IfOk result (λ c. keeps_form c ≡ true) }
{
    let word = text(value, "do")?;
    let command = by_word(alloc, word, value)?;
    if !keeps_form(&command) {
        drop(command);
        return Err(LineFault::BadCommand);
    }
    Ok(command)
}

/// The command that a line is. `BadCommand` comes exactly where it is none: where it isn't such an
/// object, and where the command doesn't keep its form.
pub fn read_line(alloc: Global, line: &[u8]) -> Result<Command, LineFault>
    ensures read { Gives result (CommandOf line.now) }
    ensures kept { IfOk result (λ c. keeps_form c ≡ true) }
{
    match Value::from_slice(alloc, line) {
        Ok(value) => command(alloc, &value),
        Err(error) => {
            if error.is_memory() {
                Err(LineFault::OutOfMemory)
            } else {
                Err(LineFault::BadCommand)
            }
        }
    }
}
