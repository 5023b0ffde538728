//! Reading the values of commands.
ghost use Rattle.std.specs.Prelude.{◌≡◌, ℕ, List, Option};
ghost use Rattle.std.specs.Int.{w32, w64};
ghost use Rattle.wire_fields.specs.Fields.{number_at, signed_at, text_at};
ghost use Rattle.cmd_codec.specs.Outcomes.{Gives, GivesBy};
ghost use Rattle.cmd_codec.specs.Reading.{name_at, task_at, kind_of, lock_kind_of, status_of, granularity_of, code_at, span_at, id_at, want_at, offset_at, range_at, each_at, list_at, some_at, option_by, option_at, ranges_at};
ghost use Rattle.cmd_codec.specs.Pairs.{both_at, tombstones_at};

use crate::fault::ReadFault;
use book_rows::{Items, LockKind, Offset, Range, Ranges, TaskKind, TaskStatus, Want};
use iv_span::Span;
use iv_time::Granularity;
use seg_names::{Name, SegId, TaskId};
use std::alloc::Global;
use wire_fields::Cursor;

// A kind of value that commands have, or several of these one after another.
pub trait Read: Drop {
    ghost reads: { List ℕ → Option (Self × List ℕ) };

    fn read(alloc: Global, cursor: &mut Cursor<'_>) -> Result<Self, ReadFault>
        ensures { Gives (reads cursor.old.rest) result cursor.old cursor.new };
}

// Two values, one after the other. A longer row is a value and the rest of the row: so a way out has
// at most one value to give back, and a command of seven values has one way out.
impl<A: Read, B: Read> Read for (A, B) {
    ghost reads = { both_at A.reads B.reads };

    #[tactic(auto, unfolding(crate::specs::Pairs::both_at))]
    fn read(alloc: Global, cursor: &mut Cursor<'_>) -> Result<(A, B), ReadFault> {
        let first = A::read(alloc, cursor)?;
        let second = B::read(alloc, cursor)?;
        Ok((first, second))
    }
}

impl Read for u32 {
    ghost reads = { number_at w32 };

    fn read(_alloc: Global, cursor: &mut Cursor<'_>) -> Result<u32, ReadFault> {
        Ok(cursor.u32()?)
    }
}

impl Read for u64 {
    ghost reads = { number_at w64 };

    fn read(_alloc: Global, cursor: &mut Cursor<'_>) -> Result<u64, ReadFault> {
        Ok(cursor.u64()?)
    }
}

impl Read for i64 {
    ghost reads = { signed_at };

    fn read(_alloc: Global, cursor: &mut Cursor<'_>) -> Result<i64, ReadFault> {
        Ok(cursor.i64()?)
    }
}

#[tactic(auto, unfolding(wire_fields::specs::Fields::text_at))]
fn text<'a>(cursor: &mut Cursor<'a>) -> Result<&'a [u8], ReadFault>
    ensures { GivesBy (λ s. s.now) (text_at cursor.old.rest) result cursor.old cursor.new }
{
    let count = cursor.u8()?;
    Ok(cursor.bytes(count as usize)?)
}

impl Read for Name {
    ghost reads = { name_at };

    #[tactic(auto, unfolding(crate::specs::Reading::name_at))]
    fn read(alloc: Global, cursor: &mut Cursor<'_>) -> Result<Name, ReadFault> {
        let text = text(cursor)?;
        Ok(Name::new(alloc, text)?)
    }
}

impl Read for TaskId {
    ghost reads = { task_at };

    #[tactic(auto, unfolding(crate::specs::Reading::task_at))]
    fn read(alloc: Global, cursor: &mut Cursor<'_>) -> Result<TaskId, ReadFault> {
        let text = text(cursor)?;
        Ok(TaskId::new(alloc, text)?)
    }
}

impl Read for TaskKind {
    ghost reads = { code_at kind_of };

    #[tactic(auto, unfolding(crate::specs::Reading::code_at))]
    fn read(_alloc: Global, cursor: &mut Cursor<'_>) -> Result<TaskKind, ReadFault> {
        match cursor.u8()? {
            1 => Ok(TaskKind::Realtime),
            2 => Ok(TaskKind::Batch),
            3 => Ok(TaskKind::Compaction),
            4 => Ok(TaskKind::Other),
            _ => Err(ReadFault::Bad),
        }
    }
}

impl Read for LockKind {
    ghost reads = { code_at lock_kind_of };

    #[tactic(auto, unfolding(crate::specs::Reading::code_at))]
    fn read(_alloc: Global, cursor: &mut Cursor<'_>) -> Result<LockKind, ReadFault> {
        match cursor.u8()? {
            1 => Ok(LockKind::Exclusive),
            2 => Ok(LockKind::Shared),
            3 => Ok(LockKind::Append),
            4 => Ok(LockKind::Replace),
            _ => Err(ReadFault::Bad),
        }
    }
}

impl Read for TaskStatus {
    ghost reads = { code_at status_of };

    #[tactic(auto, unfolding(crate::specs::Reading::code_at))]
    fn read(_alloc: Global, cursor: &mut Cursor<'_>) -> Result<TaskStatus, ReadFault> {
        match cursor.u8()? {
            1 => Ok(TaskStatus::Waiting),
            2 => Ok(TaskStatus::Running),
            3 => Ok(TaskStatus::Success),
            4 => Ok(TaskStatus::Failed),
            _ => Err(ReadFault::Bad),
        }
    }
}

impl Read for Granularity {
    ghost reads = { code_at granularity_of };

    #[tactic(auto, unfolding(crate::specs::Reading::code_at))]
    fn read(_alloc: Global, cursor: &mut Cursor<'_>) -> Result<Granularity, ReadFault> {
        match cursor.u8()? {
            1 => Ok(Granularity::Minute),
            2 => Ok(Granularity::FifteenMinute),
            3 => Ok(Granularity::Hour),
            4 => Ok(Granularity::Day),
            5 => Ok(Granularity::Week),
            6 => Ok(Granularity::Month),
            7 => Ok(Granularity::Year),
            _ => Err(ReadFault::Bad),
        }
    }
}

impl Read for Span {
    ghost reads = { span_at };

    #[tactic(auto, unfolding(crate::specs::Reading::span_at))]
    fn read(_alloc: Global, cursor: &mut Cursor<'_>) -> Result<Span, ReadFault> {
        let start = cursor.i64()?;
        let end = cursor.i64()?;
        match Span::new(start, end) {
            Ok(span) => Ok(span),
            Err(_) => Err(ReadFault::Bad),
        }
    }
}

impl Read for SegId {
    ghost reads = { id_at };

    #[tactic(auto, using(crate::proofs::Rows::id))]
    fn read(alloc: Global, cursor: &mut Cursor<'_>) -> Result<SegId, ReadFault> {
        let (source, (span, (version, part))): (Name, (Span, (i64, u32))) = Read::read(
            alloc, cursor,
        )?;
        Ok(SegId {
            source,
            span,
            version,
            part,
        })
    }
}

impl Read for Want {
    ghost reads = { want_at };

    #[tactic(auto, using(crate::proofs::Rows::want))]
    fn read(alloc: Global, cursor: &mut Cursor<'_>) -> Result<Want, ReadFault> {
        let (lock_kind, span): (LockKind, Span) = Read::read(alloc, cursor)?;
        Ok(Want { lock_kind, span })
    }
}

impl Read for Offset {
    ghost reads = { offset_at };

    #[tactic(auto, using(crate::proofs::Rows::offset))]
    fn read(alloc: Global, cursor: &mut Cursor<'_>) -> Result<Offset, ReadFault> {
        let (partition, offset): (u32, u64) = Read::read(alloc, cursor)?;
        Ok(Offset { partition, offset })
    }
}

impl Read for Range {
    ghost reads = { range_at };

    #[tactic(auto, using(crate::proofs::Rows::range))]
    fn read(alloc: Global, cursor: &mut Cursor<'_>) -> Result<Range, ReadFault> {
        let (partition, (start, end)): (u32, (u64, u64)) = Read::read(alloc, cursor)?;
        Ok(Range {
            partition,
            start,
            end,
        })
    }
}

impl Read for Ranges {
    ghost reads = { ranges_at };

    #[tactic(auto, using(crate::proofs::Rows::ranges))]
    fn read(alloc: Global, cursor: &mut Cursor<'_>) -> Result<Ranges, ReadFault> {
        let (stream, parts): (Name, Items<Range>) = Read::read(alloc, cursor)?;
        Ok(Ranges { stream, parts })
    }
}

fn each<T: Read>(alloc: Global, count: u16, cursor: &mut Cursor<'_>) -> Result<Vec<T>, ReadFault>
    ensures { GivesBy (λ v. v.items) (each_at T.reads count cursor.old.rest) result cursor.old cursor.new }
{
    let mut items = Vec::new(alloc);
    for _ in 0..count {
        items.push(T::read(alloc, cursor)?)?;
    }
    Ok(items)
}

impl<T: Read> Read for Items<T> {
    ghost reads = { list_at T.reads };

    #[tactic(auto, unfolding(crate::specs::Reading::list_at))]
    fn read(alloc: Global, cursor: &mut Cursor<'_>) -> Result<Items<T>, ReadFault> {
        let count = cursor.u16()?;
        Ok(Items::from_vec(each(alloc, count, cursor)?))
    }
}

#[tactic(auto, unfolding(crate::specs::Reading::some_at))]
fn value<T: Read>(alloc: Global, cursor: &mut Cursor<'_>) -> Result<Option<T>, ReadFault>
    ensures { Gives (some_at T.reads cursor.old.rest) result cursor.old cursor.new }
{
    let value = T::read(alloc, cursor)?;
    Ok(Some(value))
}

impl<T: Read> Read for Option<T> {
    ghost reads = { option_at T.reads };

    #[tactic(auto, unfolding(crate::specs::Reading::option_at))]
    fn read(alloc: Global, cursor: &mut Cursor<'_>) -> Result<Option<T>, ReadFault> {
        match cursor.u8()? {
            0 => Ok(None),
            1 => value(alloc, cursor),
            _ => Err(ReadFault::Bad),
        }
    }
}

// The tombstones of a command that has some.
#[derive(Drop)]
pub struct Tombstones {
    pub ids: Items<SegId>,
}

impl Read for Tombstones {
    ghost reads = { tombstones_at };

    #[tactic(auto, unfolding(crate::specs::Pairs::tombstones_at))]
    fn read(alloc: Global, cursor: &mut Cursor<'_>) -> Result<Tombstones, ReadFault> {
        let ids: Items<SegId> = Read::read(alloc, cursor)?;
        if ids.as_slice().is_empty() {
            return Err(ReadFault::Bad);
        }
        Ok(Tombstones { ids })
    }
}
