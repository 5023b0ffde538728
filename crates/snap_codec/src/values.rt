//! Reading the values that rows have.
ghost use Rattle.wire_fields.specs.Fields.{byte_at, text_at};
ghost use Rattle.cmd_codec.specs.Reading.{kind_of, lock_kind_of, status_of};
ghost use Rattle.snap_codec.specs.Outcomes.{Gives, GivesBy};
ghost use Rattle.snap_codec.specs.Readers.{Reader, field_at, short_at, long_at, code_at, bool_of, both_at, each_at, list_at, option_by, option_at};
ghost use Rattle.snap_codec.specs.Grammar.{name_at, task_at, int_at, state_of, flags_of, publication_mark_of, span_at, id_at, want_at, offset_at, range_at, ranges_at, span_since_at, report_at, some_ids_at, empties_at};

use crate::fault::ReadFault;
use crate::marks::{Flags, Mark};
use book_rows::{
    Items, LockKind, Offset, Range, Ranges, Report, SeqState, SpanSince, TaskKind, TaskStatus, Want,
};
use iv_span::Span;
use seg_names::{Name, NameFault, SegId, TaskId};
use std::alloc::Global;
use wire_fields::{Cursor, Short};

// A kind of value that rows have, or several of these one after another.
pub trait Read: Drop {
    ghost reads: { Reader Self };

    fn read(alloc: Global, cursor: &mut Cursor<'_>) -> Result<Self, ReadFault>
        ensures { Gives (reads cursor.old.rest) result cursor.new };
}

// Two values, one after the other. A longer row is a value and the rest of the row: so a way out has
// at most one value to give back, and a row of ten values has one way out.
impl<A: Read, B: Read> Read for (A, B) {
    ghost reads = { both_at A.reads B.reads };

    #[tactic(auto, unfolding(crate::specs::Readers::chosen_at))]
    fn read(alloc: Global, cursor: &mut Cursor<'_>) -> Result<(A, B), ReadFault> {
        let first = A::read(alloc, cursor)?;
        let second = B::read(alloc, cursor)?;
        Ok((first, second))
    }
}

impl Read for u32 {
    ghost reads = { short_at };

    #[tactic(auto, unfolding(crate::specs::Readers::field_at))]
    fn read(_alloc: Global, cursor: &mut Cursor<'_>) -> Result<u32, ReadFault> {
        match cursor.u32() {
            Ok(number) => Ok(number),
            Err(Short) => Err(ReadFault::Bad {
                left: cursor.rest(),
            }),
        }
    }
}

impl Read for u64 {
    ghost reads = { long_at };

    #[tactic(auto, unfolding(crate::specs::Readers::field_at))]
    fn read(_alloc: Global, cursor: &mut Cursor<'_>) -> Result<u64, ReadFault> {
        match cursor.u64() {
            Ok(number) => Ok(number),
            Err(Short) => Err(ReadFault::Bad {
                left: cursor.rest(),
            }),
        }
    }
}

impl Read for i64 {
    ghost reads = { int_at };

    #[tactic(auto, unfolding(crate::specs::Readers::field_at))]
    fn read(_alloc: Global, cursor: &mut Cursor<'_>) -> Result<i64, ReadFault> {
        match cursor.i64() {
            Ok(number) => Ok(number),
            Err(Short) => Err(ReadFault::Bad {
                left: cursor.rest(),
            }),
        }
    }
}

#[tactic(auto, unfolding(crate::specs::Readers::field_at))]
fn byte(cursor: &mut Cursor<'_>) -> Result<u8, ReadFault>
    ensures { Gives (field_at byte_at cursor.old.rest) result cursor.new }
{
    match cursor.u8() {
        Ok(byte) => Ok(byte),
        Err(Short) => Err(ReadFault::Bad {
            left: cursor.rest(),
        }),
    }
}

// A text after its length.
#[tactic(auto, unfolding(crate::specs::Readers::field_at, wire_fields::specs::Fields::text_at))]
fn text<'a>(cursor: &mut Cursor<'a>) -> Result<&'a [u8], ReadFault>
    ensures { GivesBy (λ s. s.now) (field_at text_at cursor.old.rest) result cursor.new }
{
    let left = cursor.rest();
    let Ok(count) = cursor.u8() else {
        return Err(ReadFault::Bad { left });
    };
    match cursor.bytes(count as usize) {
        Ok(text) => Ok(text),
        Err(Short) => Err(ReadFault::Bad { left }),
    }
}

impl Read for Name {
    ghost reads = { name_at };

    #[tactic(auto, unfolding(crate::specs::Readers::checked_at))]
    fn read(alloc: Global, cursor: &mut Cursor<'_>) -> Result<Name, ReadFault> {
        let left = cursor.rest();
        let text = text(cursor)?;
        match Name::new(alloc, text) {
            Ok(name) => Ok(name),
            Err(NameFault::BadName) => Err(ReadFault::Bad { left }),
            Err(NameFault::OutOfMemory) => Err(ReadFault::OutOfMemory),
        }
    }
}

impl Read for TaskId {
    ghost reads = { task_at };

    #[tactic(auto, unfolding(crate::specs::Readers::checked_at))]
    fn read(alloc: Global, cursor: &mut Cursor<'_>) -> Result<TaskId, ReadFault> {
        let left = cursor.rest();
        let text = text(cursor)?;
        match TaskId::new(alloc, text) {
            Ok(task) => Ok(task),
            Err(NameFault::BadName) => Err(ReadFault::Bad { left }),
            Err(NameFault::OutOfMemory) => Err(ReadFault::OutOfMemory),
        }
    }
}

impl Read for bool {
    ghost reads = { code_at bool_of };

    #[tactic(auto, unfolding(crate::specs::Readers::code_at))]
    fn read(_alloc: Global, cursor: &mut Cursor<'_>) -> Result<bool, ReadFault> {
        let left = cursor.rest();
        match byte(cursor)? {
            0 => Ok(false),
            1 => Ok(true),
            _ => Err(ReadFault::Bad { left }),
        }
    }
}

impl Read for TaskKind {
    ghost reads = { code_at kind_of };

    #[tactic(auto, unfolding(crate::specs::Readers::code_at))]
    fn read(_alloc: Global, cursor: &mut Cursor<'_>) -> Result<TaskKind, ReadFault> {
        let left = cursor.rest();
        match byte(cursor)? {
            1 => Ok(TaskKind::Realtime),
            2 => Ok(TaskKind::Batch),
            3 => Ok(TaskKind::Compaction),
            4 => Ok(TaskKind::Other),
            _ => Err(ReadFault::Bad { left }),
        }
    }
}

impl Read for LockKind {
    ghost reads = { code_at lock_kind_of };

    #[tactic(auto, unfolding(crate::specs::Readers::code_at))]
    fn read(_alloc: Global, cursor: &mut Cursor<'_>) -> Result<LockKind, ReadFault> {
        let left = cursor.rest();
        match byte(cursor)? {
            1 => Ok(LockKind::Exclusive),
            2 => Ok(LockKind::Shared),
            3 => Ok(LockKind::Append),
            4 => Ok(LockKind::Replace),
            _ => Err(ReadFault::Bad { left }),
        }
    }
}

impl Read for TaskStatus {
    ghost reads = { code_at status_of };

    #[tactic(auto, unfolding(crate::specs::Readers::code_at))]
    fn read(_alloc: Global, cursor: &mut Cursor<'_>) -> Result<TaskStatus, ReadFault> {
        let left = cursor.rest();
        match byte(cursor)? {
            1 => Ok(TaskStatus::Waiting),
            2 => Ok(TaskStatus::Running),
            3 => Ok(TaskStatus::Success),
            4 => Ok(TaskStatus::Failed),
            _ => Err(ReadFault::Bad { left }),
        }
    }
}

impl Read for SeqState {
    ghost reads = { code_at state_of };

    #[tactic(auto, unfolding(crate::specs::Readers::code_at))]
    fn read(_alloc: Global, cursor: &mut Cursor<'_>) -> Result<SeqState, ReadFault> {
        let left = cursor.rest();
        match byte(cursor)? {
            1 => Ok(SeqState::Reading),
            2 => Ok(SeqState::Paused),
            3 => Ok(SeqState::Closed),
            4 => Ok(SeqState::Published),
            5 => Ok(SeqState::Abandoned),
            _ => Err(ReadFault::Bad { left }),
        }
    }
}

impl Read for Flags {
    ghost reads = { code_at flags_of };

    #[tactic(auto, unfolding(crate::specs::Readers::code_at))]
    fn read(_alloc: Global, cursor: &mut Cursor<'_>) -> Result<Flags, ReadFault> {
        let left = cursor.rest();
        let (used, tombstone) = match byte(cursor)? {
            0 => (false, false),
            1 => (true, false),
            2 => (false, true),
            3 => (true, true),
            _ => return Err(ReadFault::Bad { left }),
        };
        Ok(Flags { used, tombstone })
    }
}

impl Read for Mark {
    ghost reads = { code_at publication_mark_of };

    #[tactic(auto, unfolding(crate::specs::Readers::code_at))]
    fn read(_alloc: Global, cursor: &mut Cursor<'_>) -> Result<Mark, ReadFault> {
        let left = cursor.rest();
        match byte(cursor)? {
            1 => Ok(Mark::Append),
            2 => Ok(Mark::Over),
            3 => Ok(Mark::Replace),
            4 => Ok(Mark::Drop),
            5 => Ok(Mark::Reset),
            6 => Ok(Mark::EmptyingOver),
            7 => Ok(Mark::EmptyingReplace),
            _ => Err(ReadFault::Bad { left }),
        }
    }
}

impl Read for Span {
    ghost reads = { span_at };

    #[tactic(auto, unfolding(crate::specs::Readers::made_at, crate::specs::Readers::checked_at, crate::specs::Readers::chosen_at))]
    fn read(alloc: Global, cursor: &mut Cursor<'_>) -> Result<Span, ReadFault> {
        let left = cursor.rest();
        let start: i64 = Read::read(alloc, cursor)?;
        let end: i64 = Read::read(alloc, cursor)?;
        match Span::new(start, end) {
            Ok(span) => Ok(span),
            Err(_) => Err(ReadFault::Bad { left }),
        }
    }
}

impl Read for SegId {
    ghost reads = { id_at };

    #[tactic(auto, unfolding(crate::specs::Readers::made_at))]
    fn read(alloc: Global, cursor: &mut Cursor<'_>) -> Result<SegId, ReadFault> {
        let (source, (span, (version, part))): (Name, (Span, (i64, u32))) = Read::read(
            alloc, cursor,
        )?;
        Ok(SegId {
            source,
            span,
            version,
            part,
        })
    }
}

impl Read for Want {
    ghost reads = { want_at };

    #[tactic(auto, unfolding(crate::specs::Readers::made_at))]
    fn read(alloc: Global, cursor: &mut Cursor<'_>) -> Result<Want, ReadFault> {
        let (lock_kind, span): (LockKind, Span) = Read::read(alloc, cursor)?;
        Ok(Want { lock_kind, span })
    }
}

impl Read for Offset {
    ghost reads = { offset_at };

    #[tactic(auto, unfolding(crate::specs::Readers::made_at))]
    fn read(alloc: Global, cursor: &mut Cursor<'_>) -> Result<Offset, ReadFault> {
        let (partition, offset): (u32, u64) = Read::read(alloc, cursor)?;
        Ok(Offset { partition, offset })
    }
}

impl Read for Range {
    ghost reads = { range_at };

    #[tactic(auto, unfolding(crate::specs::Readers::made_at))]
    fn read(alloc: Global, cursor: &mut Cursor<'_>) -> Result<Range, ReadFault> {
        let (partition, (start, end)): (u32, (u64, u64)) = Read::read(alloc, cursor)?;
        Ok(Range {
            partition,
            start,
            end,
        })
    }
}

impl Read for SpanSince {
    ghost reads = { span_since_at };

    #[tactic(auto, unfolding(crate::specs::Readers::made_at))]
    fn read(alloc: Global, cursor: &mut Cursor<'_>) -> Result<SpanSince, ReadFault> {
        let (span, since): (Span, u64) = Read::read(alloc, cursor)?;
        Ok(SpanSince { span, since })
    }
}

impl Read for Ranges {
    ghost reads = { ranges_at };

    #[tactic(auto, unfolding(crate::specs::Readers::made_at))]
    fn read(alloc: Global, cursor: &mut Cursor<'_>) -> Result<Ranges, ReadFault> {
        let (stream, parts): (Name, Items<Range>) = Read::read(alloc, cursor)?;
        Ok(Ranges { stream, parts })
    }
}

impl Read for Report {
    ghost reads = { report_at };

    #[tactic(auto, unfolding(crate::specs::Readers::made_at))]
    fn read(alloc: Global, cursor: &mut Cursor<'_>) -> Result<Report, ReadFault> {
        let (task, offsets): (TaskId, Items<Offset>) = Read::read(alloc, cursor)?;
        Ok(Report { task, offsets })
    }
}

fn each<T: Read>(alloc: Global, count: u32, cursor: &mut Cursor<'_>) -> Result<Vec<T>, ReadFault>
    ensures { GivesBy (λ v. v.items) (each_at T.reads count cursor.old.rest) result cursor.new }
{
    let mut items = Vec::new(alloc);
    for _ in 0..count {
        items.push(T::read(alloc, cursor)?)?;
    }
    Ok(items)
}

impl<T: Read> Read for Items<T> {
    ghost reads = { list_at T.reads };

    #[tactic(auto, unfolding(crate::specs::Readers::list_at))]
    fn read(alloc: Global, cursor: &mut Cursor<'_>) -> Result<Items<T>, ReadFault> {
        let count: u32 = Read::read(alloc, cursor)?;
        Ok(Items::from_vec(each(alloc, count, cursor)?))
    }
}

#[tactic(auto, unfolding(crate::specs::Readers::made_at))]
fn option<T: Read>(
    is_there: bool,
    alloc: Global,
    cursor: &mut Cursor<'_>,
) -> Result<Option<T>, ReadFault>
    ensures { Gives (option_by T.reads is_there cursor.old.rest) result cursor.new }
{
    if !is_there {
        return Ok(None);
    }
    let value = T::read(alloc, cursor)?;
    Ok(Some(value))
}

impl<T: Read> Read for Option<T> {
    ghost reads = { option_at T.reads };

    #[tactic(auto, unfolding(crate::specs::Readers::option_at))]
    fn read(alloc: Global, cursor: &mut Cursor<'_>) -> Result<Option<T>, ReadFault> {
        let is_there: bool = Read::read(alloc, cursor)?;
        option(is_there, alloc, cursor)
    }
}

// At least one id.
#[tactic(auto, unfolding(crate::specs::Readers::checked_at))]
fn some_ids(alloc: Global, cursor: &mut Cursor<'_>) -> Result<Items<SegId>, ReadFault>
    ensures { Gives (some_ids_at cursor.old.rest) result cursor.new }
{
    let left = cursor.rest();
    let ids: Items<SegId> = Read::read(alloc, cursor)?;
    if ids.as_slice().is_empty() {
        return Err(ReadFault::Bad { left });
    }
    Ok(ids)
}

// The tombstones of a publication, if it has some.
pub fn empties(
    has_empties: bool,
    alloc: Global,
    cursor: &mut Cursor<'_>,
) -> Result<Items<SegId>, ReadFault>
    ensures { Gives (empties_at has_empties cursor.old.rest) result cursor.new }
{
    if has_empties {
        some_ids(alloc, cursor)
    } else {
        Ok(Items::new(alloc))
    }
}
