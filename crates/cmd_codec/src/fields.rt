//! Writing values.
ghost use Rattle.std.specs.Prelude.{◌≡◌, ◌++◌, ◌∷◌, ◌<◌, ◌^◌, [], ℕ, List, length, true, OnOk, option_map};
ghost use Rattle.wire_fields.specs.Fields.{text_field};
ghost use Rattle.book_rows.specs.Form.{are_lists, are_ranges_of};
ghost use Rattle.cmd_codec.specs.Fields.{kind_code, lock_kind_code, status_code, granularity_code, short, signed, span_field, id_field, want_field, offset_field, range_field, list_field, option_field, ranges_field};
ghost use Rattle.cmd_codec.specs.Spelling.{overwrite_tag, overwrite_field, tombstones_field};

use crate::OutOfMemory;
use book_rows::{Items, LockKind, Offset, Range, Ranges, TaskKind, TaskStatus, Want};
use iv_span::Span;
use iv_time::Granularity;
use seg_names::{Name, SegId, TaskId};
use wire_fields::{put_i64, put_text, put_u8, put_u16, put_u32, put_u64};

// A kind of value that lists hold.
pub trait Write {
    ghost field: { Self → List ℕ };

    fn put(&self, out: &mut Vec<u8>) -> Result<(), OutOfMemory>
        ensures { OnOk result (out.new.items ≡ out.old.items ++ field self.now) };
}

pub fn put_name(name: &Name, out: &mut Vec<u8>) -> Result<(), OutOfMemory>
    ensures { OnOk result (out.new.items ≡ out.old.items ++ text_field name.now) }
{
    put_text(name.bytes(), out)
}

pub fn put_task(task: &TaskId, out: &mut Vec<u8>) -> Result<(), OutOfMemory>
    ensures { OnOk result (out.new.items ≡ out.old.items ++ text_field task.now) }
{
    put_text(task.bytes(), out)
}

#[tactic(auto, unfolding(crate::specs::Fields::short))]
pub fn put_short(value: u32, out: &mut Vec<u8>) -> Result<(), OutOfMemory>
    ensures { OnOk result (out.new.items ≡ out.old.items ++ short value) }
{
    put_u32(value, out)
}

#[tactic(auto, unfolding(crate::specs::Fields::signed))]
pub fn put_signed(value: i64, out: &mut Vec<u8>) -> Result<(), OutOfMemory>
    ensures { OnOk result (out.new.items ≡ out.old.items ++ signed value) }
{
    put_i64(value, out)
}

pub fn put_kind(kind: TaskKind, out: &mut Vec<u8>) -> Result<(), OutOfMemory>
    ensures { OnOk result (out.new.items ≡ out.old.items ++ kind_code kind ∷ []) }
{
    match kind {
        TaskKind::Realtime => put_u8(1, out),
        TaskKind::Batch => put_u8(2, out),
        TaskKind::Compaction => put_u8(3, out),
        TaskKind::Other => put_u8(4, out),
    }
}

pub fn put_lock_kind(kind: LockKind, out: &mut Vec<u8>) -> Result<(), OutOfMemory>
    ensures { OnOk result (out.new.items ≡ out.old.items ++ lock_kind_code kind ∷ []) }
{
    match kind {
        LockKind::Exclusive => put_u8(1, out),
        LockKind::Shared => put_u8(2, out),
        LockKind::Append => put_u8(3, out),
        LockKind::Replace => put_u8(4, out),
    }
}

pub fn put_status(status: TaskStatus, out: &mut Vec<u8>) -> Result<(), OutOfMemory>
    ensures { OnOk result (out.new.items ≡ out.old.items ++ status_code status ∷ []) }
{
    match status {
        TaskStatus::Waiting => put_u8(1, out),
        TaskStatus::Running => put_u8(2, out),
        TaskStatus::Success => put_u8(3, out),
        TaskStatus::Failed => put_u8(4, out),
    }
}

fn put_granularity(granularity: Granularity, out: &mut Vec<u8>) -> Result<(), OutOfMemory>
    ensures { OnOk result (out.new.items ≡ out.old.items ++ granularity_code granularity ∷ []) }
{
    match granularity {
        Granularity::Minute => put_u8(1, out),
        Granularity::FifteenMinute => put_u8(2, out),
        Granularity::Hour => put_u8(3, out),
        Granularity::Day => put_u8(4, out),
        Granularity::Week => put_u8(5, out),
        Granularity::Month => put_u8(6, out),
        Granularity::Year => put_u8(7, out),
    }
}

impl Write for Span {
    ghost field = { span_field };

    fn put(&self, out: &mut Vec<u8>) -> Result<(), OutOfMemory> {
        put_signed(self.start(), out)?;
        put_signed(self.end(), out)
    }
}

impl Write for SegId {
    ghost field = { id_field };

    fn put(&self, out: &mut Vec<u8>) -> Result<(), OutOfMemory> {
        put_name(&self.source, out)?;
        self.span.put(out)?;
        put_signed(self.version, out)?;
        put_u32(self.part, out)
    }
}

impl Write for Want {
    ghost field = { want_field };

    fn put(&self, out: &mut Vec<u8>) -> Result<(), OutOfMemory> {
        put_lock_kind(self.lock_kind, out)?;
        self.span.put(out)
    }
}

impl Write for Offset {
    ghost field = { offset_field };

    fn put(&self, out: &mut Vec<u8>) -> Result<(), OutOfMemory> {
        put_u32(self.partition, out)?;
        put_u64(self.offset, out)
    }
}

impl Write for Range {
    ghost field = { range_field };

    fn put(&self, out: &mut Vec<u8>) -> Result<(), OutOfMemory> {
        put_u32(self.partition, out)?;
        put_u64(self.start, out)?;
        put_u64(self.end, out)
    }
}

fn put_durations(task: &i64, completion: &i64, out: &mut Vec<u8>) -> Result<(), OutOfMemory>
    ensures { OnOk result (out.new.items ≡ out.old.items ++ (signed task.now ++ signed completion.now)) }
{
    put_signed(*task, out)?;
    put_signed(*completion, out)
}

// The tag of a `supervise` and what it reads.
pub fn put_stream(source: &Name, stream: &Name, out: &mut Vec<u8>) -> Result<(), OutOfMemory>
    ensures { OnOk result (out.new.items ≡ out.old.items ++ 12 ∷ (text_field source.now ++ text_field stream.now)) }
{
    put_u8(12, out)?;
    put_name(source, out)?;
    put_name(stream, out)
}

pub fn put_supervision(
    partitions: u32,
    task_count: u32,
    replicas: u32,
    task_duration: &i64,
    completion_timeout: &i64,
    out: &mut Vec<u8>,
) -> Result<(), OutOfMemory>
    ensures { OnOk result (out.new.items ≡ out.old.items ++ (short partitions ++ (short task_count ++ (short replicas ++ (signed task_duration.now ++ signed completion_timeout.now))))) }
{
    put_short(partitions, out)?;
    put_short(task_count, out)?;
    put_short(replicas, out)?;
    put_durations(task_duration, completion_timeout, out)
}

fn put_bucket(
    at: i64,
    granularity: Granularity,
    now: i64,
    out: &mut Vec<u8>,
) -> Result<(), OutOfMemory>
    ensures { OnOk result (out.new.items ≡ out.old.items ++ (signed at ++ granularity_code granularity ∷ signed now)) }
{
    put_signed(at, out)?;
    put_granularity(granularity, out)?;
    put_signed(now, out)
}

pub fn put_list<T: Write>(items: &[T], out: &mut Vec<u8>) -> Result<(), OutOfMemory>
    requires { length items.now < 2 ^ 16 }
    ensures { OnOk result (out.new.items ≡ out.old.items ++ list_field T.field items.now) }
{
    put_u16(items.len() as u16, out)?;
    for item in items {
        item.put(out)?;
    }
    Ok(())
}

fn put_previous(id: Option<&SegId>, out: &mut Vec<u8>) -> Result<(), OutOfMemory>
    ensures { OnOk result (out.new.items ≡ out.old.items ++ option_field id_field (option_map (λ i. i.now) id.entry)) }
{
    match id {
        Some(id) => {
            put_u8(1, out)?;
            id.put(out)
        }
        None => put_u8(0, out),
    }
}

pub fn put_asked(
    sequence: &Name,
    previous: Option<&SegId>,
    at: i64,
    granularity: Granularity,
    now: i64,
    out: &mut Vec<u8>,
) -> Result<(), OutOfMemory>
    ensures { OnOk result (out.new.items ≡ out.old.items ++ (text_field sequence.now ++ (option_field id_field (option_map (λ i. i.now) previous.entry) ++ (signed at ++ granularity_code granularity ∷ signed now)))) }
{
    put_name(sequence, out)?;
    put_previous(previous, out)?;
    put_bucket(at, granularity, now, out)
}

pub fn put_ranges(ranges: Option<&Ranges>, out: &mut Vec<u8>) -> Result<(), OutOfMemory>
    requires { are_ranges_of (option_map (λ r. r.now) ranges) ≡ true }
    ensures { OnOk result (out.new.items ≡ out.old.items ++ option_field ranges_field (option_map (λ r. r.now) ranges.entry)) }
{
    match ranges {
        Some(ranges) => {
            put_u8(1, out)?;
            put_name(&ranges.stream, out)?;
            put_list(ranges.parts.as_slice(), out)
        }
        None => put_u8(0, out),
    }
}

fn put_tombstones(tombstones: &[SegId], out: &mut Vec<u8>) -> Result<(), OutOfMemory>
    requires { length tombstones.now < 2 ^ 16 }
    ensures { OnOk result (out.new.items ≡ out.old.items ++ tombstones_field tombstones.now) }
{
    if tombstones.is_empty() {
        return Ok(());
    }
    put_list(tombstones, out)
}

pub fn tag_of_overwrite(plain: u8, marked: u8, tombstones: &Items<SegId>) -> u8
    ensures { result ≡ overwrite_tag plain marked tombstones.now }
{
    if tombstones.as_slice().is_empty() {
        plain
    } else {
        marked
    }
}

pub fn put_overwrite(
    task: &TaskId,
    spans: &Items<Span>,
    ids: &Items<SegId>,
    tombstones: &Items<SegId>,
    ranges: &Option<Ranges>,
    out: &mut Vec<u8>,
) -> Result<(), OutOfMemory>
    requires { are_lists spans.now ids.now tombstones.now ranges.now ≡ true }
    ensures { OnOk result (out.new.items ≡ out.old.items ++ overwrite_field task.now spans.now ids.now tombstones.now ranges.now) }
{
    put_task(task, out)?;
    put_list(spans.as_slice(), out)?;
    put_list(ids.as_slice(), out)?;
    put_ranges(ranges.as_ref(), out)?;
    put_tombstones(tombstones.as_slice(), out)
}
