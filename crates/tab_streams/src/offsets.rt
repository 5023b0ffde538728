//! The stored offsets of all sources.
//!
//! A contract sees them as one list by source, stream and partition. They stand under their source
//! and their stream, so that what is done to one stream moves no offset of another.
ghost use Rattle.std.specs.Prelude.{◌+◌, ◌≡◌, ◌≤◌, IfOk, List, OnErr, OnOk, [], bytes_eq, filter, length, nat_lt, true};
ghost use Rattle.book_rows.specs.Lists.{list_links};
ghost use Rattle.book_rows.specs.Offsets.{cleared, reset_to, row_for, set_row, stored};
ghost use Rattle.book_rows.specs.declared.rows.Offset.{Offset};
ghost use Rattle.tab_streams.specs.ByName.{all_rows, set_offsets, under};
ghost use Rattle.tab_streams.specs.Order.{IsCounted};

use crate::OutOfMemory;
use crate::by_stream::ByStream;
use crate::partitions::Partitions;
use book_rows::{Offset, OffsetRow};
use seg_names::Name;
use std::alloc::{AllocError, Global};
use std::collections::BTreeMap;
use std::marker::Model;

// More offsets than memory holds.
const COUNT_LIMIT: usize = 4_611_686_018_427_387_904;

/// The offsets of each source, and how many there are.
#[derive(Drop)]
pub struct Offsets {
    alloc: Global,
    sources: BTreeMap<Name, ByStream>,
    count: usize,
}

impl Model for Offsets {
    ghost use Rattle.std.specs.Prelude.{List};
    ghost use Rattle.book_rows.specs.declared.rows.OffsetRow.{OffsetRow};
    ghost use Rattle.tab_streams.specs.ByName.{all_rows};
    ghost use Rattle.tab_streams.specs.Order.{IsCounted};

    ghost Value = { List OffsetRow };

    ghost view = { λ a. all_rows a.sources.entries };

    ghost invariant = { λ a. IsCounted (all_rows a.sources.entries) a.count };
}

// How many offsets the stream has.
fn count_of(sources: &BTreeMap<Name, ByStream>, source: &Name, stream: &Name) -> usize
    ensures { result + length (cleared (all_rows sources.now.entries) source.now stream.now) ≡ length (all_rows sources.now.entries) }
{
    let _sources = sources.len();
    match sources.get(source) {
        Some(streams) => streams.count(stream),
        None => 0,
    }
}

fn stored_in(
    sources: &BTreeMap<Name, ByStream>,
    source: &Name,
    stream: &Name,
    partition: u32,
) -> Option<u64>
    ensures { result ≡ stored (all_rows sources.now.entries) source.now stream.now partition }
{
    let _sources = sources.len();
    match sources.get(source) {
        Some(streams) => streams.get(stream, partition),
        None => None,
    }
}

// The rows of the source.
fn rows_of(
    alloc: Global,
    sources: &BTreeMap<Name, ByStream>,
    source: &Name,
) -> Result<Vec<OffsetRow>, OutOfMemory>
    ensures { IfOk result (λ rows. rows.items ≡ filter (λ r. bytes_eq r.source source.now) (all_rows sources.now.entries)) }
{
    let _sources = sources.len();
    match sources.get(source) {
        Some(streams) => streams.rows(alloc, source),
        None => Ok(Vec::new(alloc)),
    }
}

// Stores the first offset of a source.
fn add_source(
    sources: &mut BTreeMap<Name, ByStream>,
    alloc: Global,
    source: Name,
    stream: Name,
    offset: Offset,
) -> Result<(), OutOfMemory>
    requires { under source sources.old.entries ≡ [] }
    ensures ok { OnOk result (all_rows sources.new.entries ≡ set_row (row_for source stream offset) (all_rows sources.old.entries)) }
    ensures err { OnErr result (all_rows sources.new.entries ≡ all_rows sources.old.entries) }
{
    let mut streams = ByStream::new(alloc);
    streams.set(alloc, stream, offset)?;
    sources.insert(source, streams)?;
    Ok(())
}

fn set_in(
    sources: &mut BTreeMap<Name, ByStream>,
    alloc: Global,
    source: Name,
    stream: Name,
    offset: Offset,
) -> Result<(), OutOfMemory>
    ensures ok { OnOk result (all_rows sources.new.entries ≡ set_row (row_for source stream offset) (all_rows sources.old.entries)) }
    ensures err { OnErr result (all_rows sources.new.entries ≡ all_rows sources.old.entries) }
{
    if let Some(streams) = sources.get_mut(&source) {
        return streams.set(alloc, stream, offset);
    }
    add_source(sources, alloc, source, stream, offset)
}

// Puts the offsets of a source's first stream.
fn put_source(
    sources: &mut BTreeMap<Name, ByStream>,
    alloc: Global,
    source: &Name,
    stream: Name,
    partitions: Partitions,
) -> Result<(), OutOfMemory>
    requires { under source.now sources.old.entries ≡ [] }
    ensures ok { (os : List Offset) → partitions ≡ set_offsets [] os → OnOk result (all_rows sources.new.entries ≡ reset_to (all_rows sources.old.entries) source.now stream os) }
    ensures err { OnErr result (all_rows sources.new.entries ≡ all_rows sources.old.entries) }
{
    let name = source.twin(alloc)?;
    let mut streams = ByStream::new(alloc);
    streams.put(stream, partitions)?;
    sources.insert(name, streams)?;
    Ok(())
}

// Puts the offsets in the place of the stream's.
fn put_in(
    sources: &mut BTreeMap<Name, ByStream>,
    alloc: Global,
    source: &Name,
    stream: &Name,
    partitions: Partitions,
) -> Result<(), OutOfMemory>
    ensures ok { (os : List Offset) → partitions ≡ set_offsets [] os → OnOk result (all_rows sources.new.entries ≡ reset_to (all_rows sources.old.entries) source.now stream.now os) }
    ensures err { OnErr result (all_rows sources.new.entries ≡ all_rows sources.old.entries) }
{
    let stream = stream.twin(alloc)?;
    if let Some(streams) = sources.get_mut(source) {
        return streams.put(stream, partitions);
    }
    put_source(sources, alloc, source, stream, partitions)
}

// The stream goes. Answers whether its source has no other.
fn remove_stream(sources: &mut BTreeMap<Name, ByStream>, source: &Name, stream: &Name) -> bool
    ensures rows { all_rows sources.new.entries ≡ cleared (all_rows sources.old.entries) source.now stream.now }
    ensures last { result ≡ true → under source.now sources.new.entries ≡ [] }
{
    if let Some(streams) = sources.get_mut(source) {
        streams.remove(stream);
        return streams.is_empty();
    }
    false
}

// A source without streams goes.
fn remove_source(sources: &mut BTreeMap<Name, ByStream>, source: &Name)
    requires { under source.now sources.old.entries ≡ [] }
    ensures { all_rows sources.new.entries ≡ all_rows sources.old.entries }
{
    let _sources = sources.len();
    sources.remove(source);
}

fn clear_in(sources: &mut BTreeMap<Name, ByStream>, source: &Name, stream: &Name)
    ensures { all_rows sources.new.entries ≡ cleared (all_rows sources.old.entries) source.now stream.now }
{
    if remove_stream(sources, source, stream) {
        remove_source(sources, source);
    }
}

// How many offsets stand outside of the stream.
fn others(sources: &BTreeMap<Name, ByStream>, count: usize, source: &Name, stream: &Name) -> usize
    requires { IsCounted (all_rows sources.now.entries) count }
    ensures count { result ≡ length (cleared (all_rows sources.now.entries) source.now stream.now) }
    ensures small { result ≤ 4611686018427387904 }
{
    count - count_of(sources, source, stream)
}

// The sum, where it isn't above the limit.
fn sum_of(count: usize, more: usize) -> Result<usize, OutOfMemory>
    requires { count ≤ 4611686018427387904 }
    ensures { IfOk result (λ n. (n ≡ count + more) × (n ≤ 4611686018427387904)) }
{
    if more > COUNT_LIMIT - count {
        return Err(AllocError);
    }
    Ok(count + more)
}

// How many offsets there are once the row is set.
fn count_with(
    sources: &BTreeMap<Name, ByStream>,
    count: usize,
    row: &OffsetRow,
) -> Result<usize, OutOfMemory>
    requires { IsCounted (all_rows sources.now.entries) count }
    ensures { IfOk result (λ n. IsCounted (set_row row.now (all_rows sources.now.entries)) n) }
{
    match stored_in(sources, &row.source, &row.stream, row.partition) {
        Some(_) => Ok(count),
        None => sum_of(count, 1),
    }
}

// Stores the row, and answers how many there are then.
fn set_counted(
    sources: &mut BTreeMap<Name, ByStream>,
    alloc: Global,
    count: usize,
    row: OffsetRow,
) -> Result<usize, OutOfMemory>
    requires { IsCounted (all_rows sources.old.entries) count }
    ensures ok { OnOk result (all_rows sources.new.entries ≡ set_row row (all_rows sources.old.entries)) }
    ensures err { OnErr result (all_rows sources.new.entries ≡ all_rows sources.old.entries) }
    ensures counted { IfOk result (λ n. IsCounted (all_rows sources.new.entries) n) }
{
    let count = count_with(sources, count, &row)?;
    let OffsetRow {
        source,
        stream,
        partition,
        offset,
    } = row;
    set_in(sources, alloc, source, stream, Offset { partition, offset })?;
    Ok(count)
}

// How many offsets there are once so many stand in the place of the stream's.
fn count_beside(
    sources: &BTreeMap<Name, ByStream>,
    count: usize,
    source: &Name,
    stream: &Name,
    partitions: &Partitions,
) -> Result<usize, OutOfMemory>
    requires { IsCounted (all_rows sources.now.entries) count }
    ensures { IfOk result (λ n. (n ≡ length (cleared (all_rows sources.now.entries) source.now stream.now) + length partitions.now) × (n ≤ 4611686018427387904)) }
{
    sum_of(others(sources, count, source, stream), partitions.count())
}

// Puts these offsets in the place of the stream's, and answers how many there are then.
fn reset_counted(
    sources: &mut BTreeMap<Name, ByStream>,
    alloc: Global,
    count: usize,
    source: &Name,
    stream: &Name,
    offsets: &[Offset],
) -> Result<usize, OutOfMemory>
    requires { IsCounted (all_rows sources.old.entries) count }
    ensures ok { OnOk result (all_rows sources.new.entries ≡ reset_to (all_rows sources.old.entries) source.now stream.now offsets.now) }
    ensures err { OnErr result (all_rows sources.new.entries ≡ all_rows sources.old.entries) }
    ensures counted { IfOk result (λ n. IsCounted (all_rows sources.new.entries) n) }
{
    let partitions = Partitions::of(alloc, offsets)?;
    let count = count_beside(sources, count, source, stream, &partitions)?;
    put_in(sources, alloc, source, stream, partitions)?;
    Ok(count)
}

impl Offsets {
    /// No offsets.
    pub fn new(alloc: Global) -> Offsets
        ensures { result ≡ [] }
    {
        Offsets {
            alloc,
            sources: BTreeMap::new(alloc),
            count: 0,
        }
    }

    /// How many there are.
    pub fn count(&self) -> usize
        ensures { result ≡ length self.now }
    {
        self.count
    }

    /// The stored offset of a partition of the stream.
    pub fn stored(&self, source: &Name, stream: &Name, partition: u32) -> Option<u64>
        ensures { result ≡ stored self.now source.now stream.now partition }
    {
        stored_in(&self.sources, source, stream, partition)
    }

    /// Those of the source, by stream and partition. The error is want of memory.
    pub fn rows_of(&self, alloc: Global, source: &Name) -> Result<Vec<OffsetRow>, OutOfMemory>
        ensures { IfOk result (λ rows. rows.items ≡ filter (λ r. bytes_eq r.source source.now) self.now) }
    {
        rows_of(alloc, &self.sources, source)
    }

    /// How many there would be after a reset of the stream to these, whose partitions ascend.
    pub fn count_after(&self, source: &Name, stream: &Name, offsets: &[Offset]) -> usize
        requires { list_links (λ a b. nat_lt a.partition b.partition) offsets.now ≡ true }
        ensures { result ≡ length (reset_to self.now source.now stream.now offsets.now) }
    {
        others(&self.sources, self.count, source, stream) + offsets.len()
    }

    /// Stores an offset, over the one of its partition where there is one. The error is want of
    /// memory, and leaves them as they were.
    pub fn set(&mut self, row: OffsetRow) -> Result<(), OutOfMemory>
        ensures ok { OnOk result (self.new ≡ set_row row self.old) }
        ensures err { OnErr result (self.new ≡ self.old) }
    {
        self.count = set_counted(&mut self.sources, self.alloc, self.count, row)?;
        Ok(())
    }

    /// Puts these offsets in the place of the stream's, the last of a partition where it is there
    /// more than once. The error is want of memory, and leaves them as they were.
    pub fn reset(
        &mut self,
        alloc: Global,
        source: &Name,
        stream: &Name,
        offsets: &[Offset],
    ) -> Result<(), OutOfMemory>
        ensures ok { OnOk result (self.new ≡ reset_to self.old source.now stream.now offsets.now) }
        ensures err { OnErr result (self.new ≡ self.old) }
    {
        self.count = reset_counted(
            &mut self.sources,
            alloc,
            self.count,
            source,
            stream,
            offsets,
        )?;
        Ok(())
    }

    /// The stream's offsets go. It takes no memory.
    pub fn clear(&mut self, source: &Name, stream: &Name)
        ensures { self.new ≡ cleared self.old source.now stream.now }
    {
        let count = others(&self.sources, self.count, source, stream);
        clear_in(&mut self.sources, source, stream);
        self.count = count;
    }
}
