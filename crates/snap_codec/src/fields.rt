//! Writing the values that rows have.
ghost use Rattle.std.specs.Prelude.{◌≡◌, ◌++◌, ◌∷◌, [], ℕ, List, OnOk};
ghost use Rattle.wire_fields.specs.Fields.{text_field};
ghost use Rattle.cmd_codec.specs.Fields.{kind_code, lock_kind_code, status_code, short, signed, span_field, id_field, want_field, offset_field, range_field, option_field};
ghost use Rattle.snap_codec.specs.Fields.{long, bool_code, state_code, flags_code_by, mark_code, list_field, ranges_field, span_since_field, report_field};
ghost use Rattle.snap_codec.specs.Fits.{FitsShort, FitsLong, FitsInt, IsName, IsTask, Always, FitsList, FitsOption, FitsSpan, FitsId, FitsWant, FitsOffset, FitsRange, FitsRanges, FitsSpanSince, FitsReport};

use crate::OutOfMemory;
use crate::marks::Mark;
use book_rows::{
    Items, LockKind, Offset, Range, Ranges, Report, SeqState, SpanSince, TaskKind, TaskStatus, Want,
};
use iv_span::Span;
use seg_names::{Name, SegId, TaskId};
use std::alloc::AllocError;
use wire_fields::{put_i64, put_text, put_u8, put_u32, put_u64};

// A kind of value that rows have. What was put is a value that fits its field.
pub trait Write {
    ghost field: { Self → List ℕ };

    ghost Fits: { Self → Type 0 };

    fn put(&self, out: &mut Vec<u8>) -> Result<(), OutOfMemory>
        ensures bytes { OnOk result (out.new.items ≡ out.old.items ++ field self.now) }
        ensures kept { OnOk result (Fits self.now) };
}

impl Write for u32 {
    ghost field = { short };

    ghost Fits = { FitsShort };

    #[tactic(auto, unfolding(cmd_codec::specs::Fields::short))]
    fn put(&self, out: &mut Vec<u8>) -> Result<(), OutOfMemory> {
        put_u32(*self, out)
    }
}

impl Write for u64 {
    ghost field = { long };

    ghost Fits = { FitsLong };

    #[tactic(auto, unfolding(crate::specs::Fields::long))]
    fn put(&self, out: &mut Vec<u8>) -> Result<(), OutOfMemory> {
        put_u64(*self, out)
    }
}

impl Write for i64 {
    ghost field = { signed };

    ghost Fits = { FitsInt };

    #[tactic(auto, unfolding(cmd_codec::specs::Fields::signed))]
    fn put(&self, out: &mut Vec<u8>) -> Result<(), OutOfMemory> {
        put_i64(*self, out)
    }
}

impl Write for Name {
    ghost field = { text_field };

    ghost Fits = { IsName };

    fn put(&self, out: &mut Vec<u8>) -> Result<(), OutOfMemory> {
        put_text(self.bytes(), out)
    }
}

impl Write for TaskId {
    ghost field = { text_field };

    ghost Fits = { IsTask };

    fn put(&self, out: &mut Vec<u8>) -> Result<(), OutOfMemory> {
        put_text(self.bytes(), out)
    }
}

impl Write for bool {
    ghost field = { λ b. bool_code b ∷ [] };

    ghost Fits = { Always };

    fn put(&self, out: &mut Vec<u8>) -> Result<(), OutOfMemory> {
        match *self {
            false => put_u8(0, out),
            true => put_u8(1, out),
        }
    }
}

impl Write for TaskKind {
    ghost field = { λ k. kind_code k ∷ [] };

    ghost Fits = { Always };

    fn put(&self, out: &mut Vec<u8>) -> Result<(), OutOfMemory> {
        match *self {
            TaskKind::Realtime => put_u8(1, out),
            TaskKind::Batch => put_u8(2, out),
            TaskKind::Compaction => put_u8(3, out),
            TaskKind::Other => put_u8(4, out),
        }
    }
}

impl Write for LockKind {
    ghost field = { λ k. lock_kind_code k ∷ [] };

    ghost Fits = { Always };

    fn put(&self, out: &mut Vec<u8>) -> Result<(), OutOfMemory> {
        match *self {
            LockKind::Exclusive => put_u8(1, out),
            LockKind::Shared => put_u8(2, out),
            LockKind::Append => put_u8(3, out),
            LockKind::Replace => put_u8(4, out),
        }
    }
}

impl Write for TaskStatus {
    ghost field = { λ s. status_code s ∷ [] };

    ghost Fits = { Always };

    fn put(&self, out: &mut Vec<u8>) -> Result<(), OutOfMemory> {
        match *self {
            TaskStatus::Waiting => put_u8(1, out),
            TaskStatus::Running => put_u8(2, out),
            TaskStatus::Success => put_u8(3, out),
            TaskStatus::Failed => put_u8(4, out),
        }
    }
}

impl Write for SeqState {
    ghost field = { λ s. state_code s ∷ [] };

    ghost Fits = { Always };

    fn put(&self, out: &mut Vec<u8>) -> Result<(), OutOfMemory> {
        match *self {
            SeqState::Reading => put_u8(1, out),
            SeqState::Paused => put_u8(2, out),
            SeqState::Closed => put_u8(3, out),
            SeqState::Published => put_u8(4, out),
            SeqState::Abandoned => put_u8(5, out),
        }
    }
}

impl Write for Mark {
    ghost field = { λ m. mark_code m ∷ [] };

    ghost Fits = { Always };

    fn put(&self, out: &mut Vec<u8>) -> Result<(), OutOfMemory> {
        match *self {
            Mark::Append => put_u8(1, out),
            Mark::Over => put_u8(2, out),
            Mark::Replace => put_u8(3, out),
            Mark::Drop => put_u8(4, out),
            Mark::Reset => put_u8(5, out),
            Mark::EmptyingOver => put_u8(6, out),
            Mark::EmptyingReplace => put_u8(7, out),
        }
    }
}

// Whether a segment is used, and whether it is a tombstone.
pub fn put_flags(used: bool, tombstone: bool, out: &mut Vec<u8>) -> Result<(), OutOfMemory>
    ensures { OnOk result (out.new.items ≡ out.old.items ++ flags_code_by used tombstone ∷ []) }
{
    match (used, tombstone) {
        (false, false) => put_u8(0, out),
        (true, false) => put_u8(1, out),
        (false, true) => put_u8(2, out),
        (true, true) => put_u8(3, out),
    }
}

impl Write for Span {
    ghost field = { span_field };

    ghost Fits = { FitsSpan };

    fn put(&self, out: &mut Vec<u8>) -> Result<(), OutOfMemory> {
        self.start().put(out)?;
        self.end().put(out)
    }
}

impl Write for SegId {
    ghost field = { id_field };

    ghost Fits = { FitsId };

    fn put(&self, out: &mut Vec<u8>) -> Result<(), OutOfMemory> {
        self.source.put(out)?;
        self.span.put(out)?;
        self.version.put(out)?;
        put_u32(self.part, out)
    }
}

impl Write for Want {
    ghost field = { want_field };

    ghost Fits = { FitsWant };

    fn put(&self, out: &mut Vec<u8>) -> Result<(), OutOfMemory> {
        self.lock_kind.put(out)?;
        self.span.put(out)
    }
}

impl Write for Offset {
    ghost field = { offset_field };

    ghost Fits = { FitsOffset };

    fn put(&self, out: &mut Vec<u8>) -> Result<(), OutOfMemory> {
        put_u32(self.partition, out)?;
        put_u64(self.offset, out)
    }
}

impl Write for Range {
    ghost field = { range_field };

    ghost Fits = { FitsRange };

    fn put(&self, out: &mut Vec<u8>) -> Result<(), OutOfMemory> {
        put_u32(self.partition, out)?;
        put_u64(self.start, out)?;
        put_u64(self.end, out)
    }
}

impl Write for SpanSince {
    ghost field = { span_since_field };

    ghost Fits = { FitsSpanSince };

    fn put(&self, out: &mut Vec<u8>) -> Result<(), OutOfMemory> {
        self.span.put(out)?;
        self.since.put(out)
    }
}

impl Write for Ranges {
    ghost field = { ranges_field };

    ghost Fits = { FitsRanges };

    fn put(&self, out: &mut Vec<u8>) -> Result<(), OutOfMemory> {
        self.stream.put(out)?;
        self.parts.put(out)
    }
}

impl Write for Report {
    ghost field = { report_field };

    ghost Fits = { FitsReport };

    fn put(&self, out: &mut Vec<u8>) -> Result<(), OutOfMemory> {
        self.task.put(out)?;
        self.offsets.put(out)
    }
}

// A list that four bytes can't count is longer than memory has room for.
fn put_list<T: Write>(items: &[T], out: &mut Vec<u8>) -> Result<(), OutOfMemory>
    ensures bytes { OnOk result (out.new.items ≡ out.old.items ++ list_field T.field items.now) }
    ensures kept { OnOk result (FitsList T.Fits items.now) }
{
    if items.len() > u32::MAX as usize {
        return Err(AllocError);
    }
    let count = items.len() as u32;
    count.put(out)?;
    for item in items {
        item.put(out)?;
    }
    Ok(())
}

impl<T: Write> Write for Items<T> {
    ghost field = { list_field T.field };

    ghost Fits = { FitsList T.Fits };

    fn put(&self, out: &mut Vec<u8>) -> Result<(), OutOfMemory> {
        put_list(self.as_slice(), out)
    }
}

impl<T: Write> Write for Option<T> {
    ghost field = { option_field T.field };

    ghost Fits = { FitsOption T.Fits };

    fn put(&self, out: &mut Vec<u8>) -> Result<(), OutOfMemory> {
        match self {
            Some(value) => {
                put_u8(1, out)?;
                value.put(out)
            }
            None => put_u8(0, out),
        }
    }
}
