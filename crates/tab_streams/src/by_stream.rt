//! The stored offsets of one source, by stream.
ghost use Rattle.std.specs.Prelude.{◌==◌, ◌≡◌, IfOk, OnErr, OnOk, [], length};
ghost use Rattle.std.specs.BTreeMap.{insert_entry, is_at};
ghost use Rattle.std.specs.Cmp.Lexicographic.{slice_cmp};
ghost use Rattle.std.specs.Map.{remove_entry};
ghost use Rattle.std.specs.Ordering.{nat_cmp};
ghost use Rattle.tab_streams.specs.ByName.{AreOrdered, offset_of, set_offset, source_rows, under};

use crate::OutOfMemory;
use crate::partitions::Partitions;
use book_rows::{Offset, OffsetRow};
use seg_names::Name;
use std::alloc::Global;
use std::collections::BTreeMap;
use std::marker::Model;

/// The offsets of each stream, under its name.
#[derive(Drop)]
pub struct ByStream {
    streams: BTreeMap<Name, Partitions>,
}

impl Model for ByStream {
    ghost use Rattle.std.specs.Prelude.{List, ℕ};
    ghost use Rattle.book_rows.specs.declared.rows.Offset.{Offset};

    ghost Value = { List (List ℕ × List Offset) };

    ghost view = { λ a. a.streams.entries };
}

// Stores the first offset of a stream.
fn add_stream(
    streams: &mut BTreeMap<Name, Partitions>,
    alloc: Global,
    stream: Name,
    offset: Offset,
) -> Result<(), OutOfMemory>
    ensures ok { OnOk result (streams.new.entries ≡ insert_entry (slice_cmp nat_cmp) streams.old.entries stream (set_offset offset [])) }
    ensures err { OnErr result (streams.new.entries ≡ streams.old.entries) }
{
    let mut partitions = Partitions::new(alloc);
    partitions.set(offset)?;
    streams.insert(stream, partitions)?;
    Ok(())
}

fn set(
    streams: &mut BTreeMap<Name, Partitions>,
    alloc: Global,
    stream: Name,
    offset: Offset,
) -> Result<(), OutOfMemory>
    ensures ok { OnOk result (streams.new.entries ≡ insert_entry (slice_cmp nat_cmp) streams.old.entries stream (set_offset offset (under stream streams.old.entries))) }
    ensures err { OnErr result (streams.new.entries ≡ streams.old.entries) }
    ensures ordered { AreOrdered streams.old.entries }
{
    if let Some(partitions) = streams.get_mut(&stream) {
        return partitions.set(offset);
    }
    add_stream(streams, alloc, stream, offset)
}

fn count_of(streams: &BTreeMap<Name, Partitions>, stream: &Name) -> usize
    ensures { result ≡ length (under stream.now streams.now.entries) }
{
    match streams.get(stream) {
        Some(partitions) => partitions.count(),
        None => 0,
    }
}

fn offset_in(streams: &BTreeMap<Name, Partitions>, stream: &Name, partition: u32) -> Option<u64>
    ensures { result ≡ offset_of partition (under stream.now streams.now.entries) }
{
    match streams.get(stream) {
        Some(partitions) => partitions.get(partition),
        None => None,
    }
}

fn rows_in(
    alloc: Global,
    source: &Name,
    streams: &BTreeMap<Name, Partitions>,
) -> Result<Vec<OffsetRow>, OutOfMemory>
    ensures { IfOk result (λ rows. rows.items ≡ source_rows source.now streams.now.entries) }
{
    let mut rows = Vec::new(alloc);
    for (stream, partitions) in streams {
        partitions.push_rows(alloc, source, stream, &mut rows)?;
    }
    Ok(rows)
}

impl ByStream {
    /// No streams.
    pub fn new(alloc: Global) -> ByStream
        ensures { result ≡ [] }
    {
        ByStream {
            streams: BTreeMap::new(alloc),
        }
    }

    /// Whether there is no stream.
    pub fn is_empty(&self) -> bool
        ensures { result ≡ (length self.now == 0) }
    {
        self.streams.len() == 0
    }

    /// How many offsets the stream has.
    pub fn count(&self, stream: &Name) -> usize
        ensures count { result ≡ length (under stream.now self.now) }
        ensures ordered { AreOrdered self.now }
    {
        let _streams = self.streams.len();
        count_of(&self.streams, stream)
    }

    /// The offset of a partition of the stream.
    pub fn get(&self, stream: &Name, partition: u32) -> Option<u64>
        ensures offset { result ≡ offset_of partition (under stream.now self.now) }
        ensures ordered { AreOrdered self.now }
    {
        let _streams = self.streams.len();
        offset_in(&self.streams, stream, partition)
    }

    /// The offsets of all streams as rows of this source, by stream and partition. The error is want
    /// of memory.
    pub fn rows(&self, alloc: Global, source: &Name) -> Result<Vec<OffsetRow>, OutOfMemory>
        ensures { IfOk result (λ rows. rows.items ≡ source_rows source.now self.now) }
    {
        rows_in(alloc, source, &self.streams)
    }

    /// Stores an offset of the stream, over the one of its partition where there is one. The error
    /// is want of memory.
    pub fn set(&mut self, alloc: Global, stream: Name, offset: Offset) -> Result<(), OutOfMemory>
        ensures ok { OnOk result (self.new ≡ insert_entry (slice_cmp nat_cmp) self.old stream (set_offset offset (under stream self.old))) }
        ensures err { OnErr result (self.new ≡ self.old) }
        ensures ordered { AreOrdered self.old }
    {
        set(&mut self.streams, alloc, stream, offset)
    }

    /// Puts these offsets in the place of the stream's. The error is want of memory.
    pub fn put(&mut self, stream: Name, partitions: Partitions) -> Result<(), OutOfMemory>
        ensures ok { OnOk result (self.new ≡ insert_entry (slice_cmp nat_cmp) self.old stream partitions) }
        ensures err { OnErr result (self.new ≡ self.old) }
        ensures ordered { AreOrdered self.old }
    {
        self.streams.insert(stream, partitions)?;
        Ok(())
    }

    /// The stream goes. It takes no memory.
    pub fn remove(&mut self, stream: &Name)
        ensures removed { self.new ≡ remove_entry (is_at (slice_cmp nat_cmp stream.now)) self.old }
        ensures ordered { AreOrdered self.old }
    {
        let _streams = self.streams.len();
        self.streams.remove(stream);
    }
}
