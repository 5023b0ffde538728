//! The stored offsets of one stream.
ghost use Rattle.std.specs.Prelude.{◌++◌, ◌==◌, ◌≡◌, IfOk, OnErr, OnOk, [], length, slice_get};
ghost use Rattle.std.specs.Option.{option_copied};
ghost use Rattle.book_rows.specs.Offsets.{row_for};
ghost use Rattle.tab_streams.specs.ByName.{IsPlace, Rise, if_of, offset_of, set_offset, set_offsets, stream_rows};

use crate::OutOfMemory;
use book_rows::{Offset, OffsetRow};
use seg_names::Name;
use std::alloc::Global;
use std::marker::Model;

/// Offsets by ascending partition. No partition stands there twice.
#[derive(Drop)]
pub struct Partitions {
    offsets: Vec<Offset>,
}

impl Model for Partitions {
    ghost use Rattle.std.specs.Prelude.{List};
    ghost use Rattle.book_rows.specs.declared.rows.Offset.{Offset};
    ghost use Rattle.tab_streams.specs.ByName.{Rise};

    ghost Value = { List Offset };

    ghost view = { λ a. a.offsets.items };

    ghost invariant = { λ a. Rise a.offsets.items };
}

fn is_of(offset: &Offset, partition: u32) -> bool
    ensures { result ≡ (offset.now.partition == partition) }
{
    offset.partition == partition
}

// The place of the first offset that isn't of a lower partition.
fn place_of(offsets: &[Offset], partition: u32) -> usize
    requires { Rise offsets.now }
    ensures { IsPlace partition offsets.now result }
{
    offsets.partition_point(|offset| offset.partition < partition)
}

// Puts the offset at its place, over the one of its partition where there is one.
fn put(offsets: &mut Vec<Offset>, at: usize, offset: Offset) -> Result<(), OutOfMemory>
    requires { IsPlace offset.partition offsets.old.items at }
    ensures ok { OnOk result (offsets.new.items ≡ set_offset offset offsets.old.items) }
    ensures err { OnErr result (offsets.new.items ≡ offsets.old.items) }
{
    if at == offsets.len() {
        offsets.push(offset)?;
        return Ok(());
    }
    if is_of(&offsets[at], offset.partition) {
        offsets[at] = offset;
        return Ok(());
    }
    offsets.insert(at, offset)?;
    Ok(())
}

fn set(offsets: &mut Vec<Offset>, offset: Offset) -> Result<(), OutOfMemory>
    requires { Rise offsets.old.items }
    ensures ok { OnOk result (offsets.new.items ≡ set_offset offset offsets.old.items) }
    ensures err { OnErr result (offsets.new.items ≡ offsets.old.items) }
    ensures rise { Rise offsets.new.items }
{
    let at = place_of(offsets.as_slice(), offset.partition);
    put(offsets, at, offset)
}

// These offsets, each over an earlier one of its partition.
fn made_of(alloc: Global, offsets: &[Offset]) -> Result<Vec<Offset>, OutOfMemory>
    ensures items { IfOk result (λ made. made.items ≡ set_offsets [] offsets.now) }
    ensures rise { IfOk result (λ made. Rise made.items) }
{
    let mut made = Vec::with_capacity(alloc, offsets.len())?;
    for offset in offsets {
        set(&mut made, *offset)?;
    }
    Ok(made)
}

fn item_at(offsets: &[Offset], at: usize) -> Option<&Offset>
    ensures { option_copied result ≡ slice_get offsets.now at }
{
    offsets.get(at)
}

fn offset_if(offset: Option<&Offset>, partition: u32) -> Option<u64>
    ensures { result ≡ if_of partition (option_copied offset.entry) }
{
    match offset {
        Some(offset) if offset.partition == partition => Some(offset.offset),
        _ => None,
    }
}

fn offset_of(offsets: &[Offset], partition: u32) -> Option<u64>
    requires { Rise offsets.now }
    ensures { result ≡ offset_of partition offsets.now }
{
    let at = place_of(offsets, partition);
    offset_if(item_at(offsets, at), partition)
}

fn row_for(
    alloc: Global,
    source: &Name,
    stream: &Name,
    offset: Offset,
) -> Result<OffsetRow, OutOfMemory>
    ensures { IfOk result (λ row. row ≡ row_for source.now stream.now offset) }
{
    Ok(OffsetRow {
        source: source.twin(alloc)?,
        stream: stream.twin(alloc)?,
        partition: offset.partition,
        offset: offset.offset,
    })
}

// Puts the offsets behind the rows, as rows of the stream.
fn push_rows(
    alloc: Global,
    offsets: &[Offset],
    source: &Name,
    stream: &Name,
    rows: &mut Vec<OffsetRow>,
) -> Result<(), OutOfMemory>
    ensures { OnOk result (rows.new.items ≡ rows.old.items ++ stream_rows source.now stream.now offsets.now) }
{
    for offset in offsets {
        rows.push(row_for(alloc, source, stream, *offset)?)?;
    }
    Ok(())
}

impl Partitions {
    /// No offsets.
    pub fn new(alloc: Global) -> Partitions
        ensures { result ≡ [] }
    {
        Partitions {
            offsets: Vec::new(alloc),
        }
    }

    /// These offsets, the last of a partition where it is there more than once. The error is want of
    /// memory.
    pub fn of(alloc: Global, offsets: &[Offset]) -> Result<Partitions, OutOfMemory>
        ensures { IfOk result (λ made. made ≡ set_offsets [] offsets.now) }
    {
        Ok(Partitions {
            offsets: made_of(alloc, offsets)?,
        })
    }

    /// How many there are.
    pub fn count(&self) -> usize
        ensures { result ≡ length self.now }
    {
        self.offsets.len()
    }

    /// The offset of a partition.
    pub fn get(&self, partition: u32) -> Option<u64>
        ensures { result ≡ offset_of partition self.now }
    {
        offset_of(self.offsets.as_slice(), partition)
    }

    /// Puts them behind the rows, as rows of this stream. The error is want of memory.
    pub fn push_rows(
        &self,
        alloc: Global,
        source: &Name,
        stream: &Name,
        rows: &mut Vec<OffsetRow>,
    ) -> Result<(), OutOfMemory>
        ensures { OnOk result (rows.new.items ≡ rows.old.items ++ stream_rows source.now stream.now self.now) }
    {
        push_rows(alloc, self.offsets.as_slice(), source, stream, rows)
    }

    /// Stores an offset, over the one of its partition where there is one. The error is want of
    /// memory.
    pub fn set(&mut self, offset: Offset) -> Result<(), OutOfMemory>
        ensures ok { OnOk result (self.new ≡ set_offset offset self.old) }
        ensures err { OnErr result (self.new ≡ self.old) }
    {
        set(&mut self.offsets, offset)
    }
}
