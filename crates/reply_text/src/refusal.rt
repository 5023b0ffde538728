//! Refusals as JSON.
ghost use Rattle.std.specs.Prelude.{◌≡◌, true, IfOk};
ghost use Rattle.serde_json.specs.View.{view};
ghost use Rattle.reply_text.specs.Refusals.{refused, refused_after, refused_before, refused_by, refused_id, refused_span, refused_status, refused_source, refusal_data};
ghost use Rattle.iv_time.specs.Range.{is_instant};
ghost use Rattle.book_rows.specs.Fits.{id_fits, span_fits, refusal_fits};
ghost use Rattle.book_rows.specs.declared.replies.Refusal.TheVariants.{TableFull, NoBucket, OffsetMismatch, BadRange, SequenceState};

use crate::OutOfMemory;
use crate::object::Object;
use crate::shown::Shown;
use crate::words::{of_state_or_none, of_status, of_table};
use book_rows::{Refusal, SeqState, Table, TaskStatus};
use iv_span::Span;
use seg_names::{Name, SegId};
use serde_json::Value;
use std::alloc::Global;

fn bare(alloc: Global, code: &str) -> Result<Value, OutOfMemory>
    ensures { IfOk result (λ value. view value ≡ refused code.now) }
{
    Ok(Object::new(alloc).text("refused", code)?.value())
}

fn with_lock(alloc: Global, code: &str, by: u64) -> Result<Value, OutOfMemory>
    ensures { IfOk result (λ value. view value ≡ refused_by code.now by) }
{
    Ok(
        Object::new(alloc)
            .count("by", by)?
            .text("refused", code)?
            .value(),
    )
}

fn with_id(alloc: Global, code: &str, id: &SegId) -> Result<Value, OutOfMemory>
    requires { id_fits id.now ≡ true }
    ensures { IfOk result (λ value. view value ≡ refused_id code.now id.now) }
{
    Ok(
        Object::new(alloc)
            .part("id", id)?
            .text("refused", code)?
            .value(),
    )
}

fn with_span(alloc: Global, code: &str, span: Span) -> Result<Value, OutOfMemory>
    requires { span_fits span ≡ true }
    ensures { IfOk result (λ value. view value ≡ refused_span code.now span) }
{
    Ok(
        Object::new(alloc)
            .text("refused", code)?
            .span("span", span)?
            .value(),
    )
}

fn with_status(alloc: Global, code: &str, status: TaskStatus) -> Result<Value, OutOfMemory>
    ensures { IfOk result (λ value. view value ≡ refused_status code.now status) }
{
    Ok(
        Object::new(alloc)
            .text("refused", code)?
            .text("status", of_status(status))?
            .value(),
    )
}

fn with_source(alloc: Global, code: &str, source: &Name) -> Result<Value, OutOfMemory>
    ensures { IfOk result (λ value. view value ≡ refused_source code.now source.now) }
{
    Ok(
        Object::new(alloc)
            .text("refused", code)?
            .text("source", source.as_str())?
            .value(),
    )
}

fn table_full(alloc: Global, table: Table) -> Result<Value, OutOfMemory>
    ensures { IfOk result (λ value. view value ≡ refusal_data (TableFull table)) }
{
    Ok(
        Object::new(alloc)
            .text("refused", "TABLE_FULL")?
            .text("table", of_table(table))?
            .value(),
    )
}

fn no_bucket(alloc: Global, at: i64) -> Result<Value, OutOfMemory>
    requires { is_instant at ≡ true }
    ensures { IfOk result (λ value. view value ≡ refusal_data (NoBucket at)) }
{
    Ok(
        Object::new(alloc)
            .instant("at", at)?
            .text("refused", "NO_BUCKET")?
            .value(),
    )
}

fn offset_mismatch(alloc: Global, partition: u32, stored: u64) -> Result<Value, OutOfMemory>
    ensures { IfOk result (λ value. view value ≡ refusal_data (OffsetMismatch partition stored)) }
{
    Ok(
        Object::new(alloc)
            .count("partition", u64::from(partition))?
            .text("refused", "OFFSET_MISMATCH")?
            .count("stored", stored)?
            .value(),
    )
}

fn bad_range(alloc: Global, partition: u32) -> Result<Value, OutOfMemory>
    ensures { IfOk result (λ value. view value ≡ refusal_data (BadRange partition)) }
{
    Ok(
        Object::new(alloc)
            .count("partition", u64::from(partition))?
            .text("refused", "BAD_RANGE")?
            .value(),
    )
}

fn sequence_state(alloc: Global, state: Option<SeqState>) -> Result<Value, OutOfMemory>
    ensures { IfOk result (λ value. view value ≡ refusal_data (SequenceState state)) }
{
    Ok(
        Object::new(alloc)
            .text("refused", "SEQUENCE_STATE")?
            .text("state", of_state_or_none(state))?
            .value(),
    )
}

impl Shown for Refusal {
    ghost data_of = { refusal_data };

    ghost fits = { refusal_fits };

    fn to_json(&self, alloc: Global) -> Result<Value, OutOfMemory> {
        match self {
            Refusal::BadCommand => bare(alloc, "BAD_COMMAND"),
            Refusal::LineTooLong => bare(alloc, "LINE_TOO_LONG"),
            Refusal::TaskUnknown => bare(alloc, "TASK_UNKNOWN"),
            Refusal::TaskExists => bare(alloc, "TASK_EXISTS"),
            Refusal::TaskNotRunning { status } => with_status(alloc, "TASK_NOT_RUNNING", *status),
            Refusal::TaskEnded { status } => with_status(alloc, "TASK_ENDED", *status),
            Refusal::LockRevoked { by } => with_lock(alloc, "LOCK_REVOKED", *by),
            Refusal::LockConflict { by } => with_lock(alloc, "LOCK_CONFLICT", *by),
            Refusal::LockMissing { span } => with_span(alloc, "LOCK_MISSING", *span),
            Refusal::ClockEnd => bare(alloc, "CLOCK_END"),
            Refusal::TableFull { table } => table_full(alloc, *table),
            Refusal::ChunkCut { id } => with_id(alloc, "CHUNK_CUT", id),
            Refusal::NoBucket { at } => no_bucket(alloc, *at),
            Refusal::SequenceMismatch { id } => with_id(alloc, "SEQUENCE_MISMATCH", id),
            Refusal::NotAllocated { id } => with_id(alloc, "NOT_ALLOCATED", id),
            Refusal::BadSpan { span } => with_span(alloc, "BAD_SPAN", *span),
            Refusal::WrongVersion { id } => with_id(alloc, "WRONG_VERSION", id),
            Refusal::VersionUsed { span } => with_span(alloc, "VERSION_USED", *span),
            Refusal::PendingOverlap { id } => with_id(alloc, "PENDING_OVERLAP", id),
            Refusal::Granularity { id } => with_id(alloc, "GRANULARITY", id),
            Refusal::DropLocked { by } => with_lock(alloc, "DROP_LOCKED", *by),
            Refusal::DropPartial { id } => with_id(alloc, "DROP_PARTIAL", id),
            Refusal::OffsetMismatch { partition, stored } => offset_mismatch(
                alloc, *partition, *stored,
            ),
            Refusal::BadRange { partition } => bad_range(alloc, *partition),
            Refusal::RangeNotAssigned { source } => with_source(
                alloc,
                "RANGE_NOT_ASSIGNED",
                source,
            ),
            Refusal::SupervisorExists { source } => with_source(alloc, "SUPERVISOR_EXISTS", source),
            Refusal::SequenceState { state } => sequence_state(alloc, *state),
        }
    }
}
