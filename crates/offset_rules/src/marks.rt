//! How far the ranges of each partition have come, publication by publication, and where each stream was
//! last reset.
ghost use Rattle.std.specs.Prelude.{◌&&◌, ◌++◌, ◌<◌, ◌^◌, ◌∷◌, ◌≡◌, [], IfOk, OnOk, Some, length, nat_lt, slice_get};
ghost use Rattle.std.specs.Option.{option_copied};
ghost use Rattle.book_rows.specs.Tiles.{goes_on, is_reset};
ghost use Rattle.row_index.specs.Index.{digest_key, digest_range};
ghost use Rattle.offset_rules.specs.Marks.{Reading, end_after, end_by, end_of, end_on, history_from, history_of, history_on, history_with, is_mark_of, is_older, is_older_reset, is_reset_of, mark_reaches, mark_settles, moved, no_history, older_reaches, older_reset_reaches, part_digest, put_mark, put_marks, put_reset, reset_reaches, reset_settles, reset_to, resets_with, since_of, stream_digest};

use book_rows::{PubKind, Publication, Range, Ranges};
use row_index::{Keyed, Query, digest_key, digest_range, mix, mix_bytes};
use row_search::OutOfMemory;
use row_table::{Change, RowTable};
use seg_names::Name;
use std::alloc::Global;
use std::marker::Model;

// ---- ends

fn goes_on(offset: Option<u64>, start: u64) -> bool
    ensures { result ≡ goes_on offset start }
{
    match offset {
        Some(offset) => offset == start,
        None => true,
    }
}

fn end_on(end: Option<Option<u64>>, range: Range) -> Option<Option<u64>>
    ensures { result ≡ end_on end range }
{
    match end {
        Some(offset) if range.start <= range.end && goes_on(offset, range.start) => {
            Some(Some(range.end))
        }
        _ => None,
    }
}

fn end_after(reset: bool, end: Option<Option<u64>>, range: Range) -> Option<Option<u64>>
    ensures { result ≡ end_after reset end range }
{
    if reset {
        Some(Some(range.start))
    } else {
        end_on(end, range)
    }
}

// ---- marks

/// The last publication with a partition, counted from 1, and where its ranges end then that go on from one
/// another: nothing where they don't, and none where there are none.
#[derive(Drop)]
struct Mark<'a> {
    source: &'a Name,
    stream: &'a Name,
    partition: u32,
    place: u64,
    end: Option<Option<u64>>,
}

impl<'a> Model for Mark<'a> {
    ghost use Rattle.offset_rules.specs.Marks.{Mark};

    ghost Value = { Mark };

    ghost view = { λ a. record { source = a.source.now; stream = a.stream.now; partition = a.partition; place = a.place; end = a.end } };
}

/// A digest of a partition of a source's stream.
pub fn part_digest(digest: u64, source: &Name, stream: &Name, partition: u32) -> u64
    ensures { result ≡ part_digest digest source.now stream.now partition }
{
    let named = mix_bytes(digest, source.bytes());
    mix(mix_bytes(named, stream.bytes()), u64::from(partition))
}

impl Keyed for Mark<'_> {
    ghost keys = { λ m. digest_key (part_digest 16 m.source m.stream m.partition) ∷ [] };

    fn key_count(&self) -> usize {
        1
    }

    fn key(&self, _at: usize) -> (u64, i64) {
        digest_key(part_digest(16, self.source, self.stream, self.partition))
    }
}

fn is_mark_of(mark: &Mark<'_>, source: &Name, stream: &Name, partition: u32) -> bool
    ensures { result ≡ is_mark_of source.now stream.now partition mark.now }
{
    *mark.source == *source && (*mark.stream == *stream && mark.partition == partition)
}

/// The mark of a partition.
#[derive(Drop)]
struct OfPartition<'a> {
    source: &'a Name,
    stream: &'a Name,
    partition: u32,
}

impl Query<Mark<'_>> for OfPartition<'_> {
    ghost passes = { λ q m. is_mark_of q.source.now q.stream.now q.partition m };

    ghost ranges = { λ q. digest_range (part_digest 16 q.source.now q.stream.now q.partition) ∷ [] };

    ghost covers = { λ q m on. mark_reaches q.source.now q.stream.now q.partition m on };

    fn passes(&self, row: &Mark<'_>) -> bool {
        is_mark_of(row, self.source, self.stream, self.partition)
    }

    fn range_count(&self) -> usize
        ensures { result ≡ length (digest_range (part_digest 16 self.now.source.now self.now.stream.now self.now.partition) ∷ []) }
    {
        1
    }

    fn range(&self, at: usize) -> ((u64, i64), i64)
        requires { at < length (digest_range (part_digest 16 self.now.source.now self.now.stream.now self.now.partition) ∷ []) }
        ensures { slice_get (digest_range (part_digest 16 self.now.source.now self.now.stream.now self.now.partition) ∷ []) at ≡ Some result }
    {
        let _at = at;
        digest_range(part_digest(16, self.source, self.stream, self.partition))
    }
}

// Where the ranges end, by the mark and the stream's last reset.
fn end_by(since: u64, mark: Option<&Mark<'_>>) -> Option<Option<u64>>
    ensures { result ≡ end_by since (option_copied mark.entry) }
{
    match mark {
        Some(mark) if since <= mark.place => mark.end,
        _ => Some(None),
    }
}

/// A publication in its place, and what it reads.
#[derive(Drop)]
struct Reading<'a> {
    place: u64,
    reset: bool,
    since: u64,
    source: &'a Name,
    stream: &'a Name,
}

impl<'a> Model for Reading<'a> {
    ghost use Rattle.offset_rules.specs.Marks.{Reading};

    ghost Value = { Reading };

    ghost view = { λ a. record { place = a.place; reset = a.reset; since = a.since; source = a.source.now; stream = a.stream.now } };
}

/// A range of it.
#[derive(Drop)]
struct Moving<'a, 'b> {
    reading: &'a Reading<'b>,
    range: Range,
}

impl Query<Mark<'_>> for Moving<'_, '_> {
    ghost passes = { λ q m. is_older q.reading.now q.range m };

    ghost ranges = { λ q. digest_range (part_digest 16 q.reading.now.source q.reading.now.stream q.range.partition) ∷ [] };

    ghost covers = { λ q m on. older_reaches q.reading.now q.range m on };

    fn passes(&self, row: &Mark<'_>) -> bool {
        let reading = self.reading;
        is_mark_of(row, reading.source, reading.stream, self.range.partition)
            && row.place < reading.place
    }

    fn range_count(&self) -> usize
        ensures { result ≡ length (digest_range (part_digest 16 self.now.reading.now.source self.now.reading.now.stream self.now.range.partition) ∷ []) }
    {
        1
    }

    fn range(&self, at: usize) -> ((u64, i64), i64)
        requires { at < length (digest_range (part_digest 16 self.now.reading.now.source self.now.reading.now.stream self.now.range.partition) ∷ []) }
        ensures { slice_get (digest_range (part_digest 16 self.now.reading.now.source self.now.reading.now.stream self.now.range.partition) ∷ []) at ≡ Some result }
    {
        let _at = at;
        let reading = self.reading;
        digest_range(part_digest(16, reading.source, reading.stream, self.range.partition))
    }
}

impl Change<Mark<'_>> for Moving<'_, '_> {
    ghost after = { λ q m. moved q.reading.now q.range m };

    ghost keeps = { λ q m k there. there };

    ghost settles = { λ q m on. mark_settles q.reading.now q.range m on };

    fn change(&self, row: &mut Mark<'_>) {
        let reading = self.reading;
        let end = end_by(reading.since, Some(row));
        row.end = end_after(reading.reset, end, self.range);
        row.place = reading.place;
    }

    fn lost(&self) -> Option<(u64, i64)> {
        None
    }
}

fn put_mark<'a>(
    marks: &mut RowTable<Mark<'a>>,
    reading: &Reading<'a>,
    range: Range,
) -> Result<(), OutOfMemory>
    ensures { OnOk result (marks.new ≡ put_mark reading.now range marks.old) }
{
    let asked = OfPartition {
        source: reading.source,
        stream: reading.stream,
        partition: range.partition,
    };
    if marks.any(&asked) {
        marks.change_all(&Moving { reading, range });
        return Ok(());
    }
    marks.push(Mark {
        source: reading.source,
        stream: reading.stream,
        partition: range.partition,
        place: reading.place,
        end: end_after(reading.reset, Some(None), range),
    })
}

fn put_marks<'a>(
    marks: &mut RowTable<Mark<'a>>,
    reading: &Reading<'a>,
    parts: &[Range],
) -> Result<(), OutOfMemory>
    ensures { OnOk result (marks.new ≡ put_marks reading.now parts.now marks.old) }
{
    for range in parts {
        put_mark(marks, reading, *range)?;
    }
    Ok(())
}

// ---- resets

/// The last reset of a stream, counted from 1.
#[derive(Drop)]
struct ResetAt<'a> {
    source: &'a Name,
    stream: &'a Name,
    place: u64,
}

impl<'a> Model for ResetAt<'a> {
    ghost use Rattle.offset_rules.specs.Marks.{ResetAt};

    ghost Value = { ResetAt };

    ghost view = { λ a. record { source = a.source.now; stream = a.stream.now; place = a.place } };
}

fn stream_digest(source: &Name, stream: &Name) -> u64
    ensures { result ≡ stream_digest source.now stream.now }
{
    mix_bytes(mix_bytes(17, source.bytes()), stream.bytes())
}

impl Keyed for ResetAt<'_> {
    ghost keys = { λ r. digest_key (stream_digest r.source r.stream) ∷ [] };

    fn key_count(&self) -> usize {
        1
    }

    fn key(&self, _at: usize) -> (u64, i64) {
        digest_key(stream_digest(self.source, self.stream))
    }
}

fn is_reset_of(reset: &ResetAt<'_>, source: &Name, stream: &Name) -> bool
    ensures { result ≡ is_reset_of source.now stream.now reset.now }
{
    *reset.source == *source && *reset.stream == *stream
}

/// The last reset of a stream.
#[derive(Drop)]
struct OfStream<'a> {
    source: &'a Name,
    stream: &'a Name,
}

impl Query<ResetAt<'_>> for OfStream<'_> {
    ghost passes = { λ q r. is_reset_of q.source.now q.stream.now r };

    ghost ranges = { λ q. digest_range (stream_digest q.source.now q.stream.now) ∷ [] };

    ghost covers = { λ q r on. reset_reaches q.source.now q.stream.now r on };

    fn passes(&self, row: &ResetAt<'_>) -> bool {
        is_reset_of(row, self.source, self.stream)
    }

    fn range_count(&self) -> usize
        ensures { result ≡ length (digest_range (stream_digest self.now.source.now self.now.stream.now) ∷ []) }
    {
        1
    }

    fn range(&self, at: usize) -> ((u64, i64), i64)
        requires { at < length (digest_range (stream_digest self.now.source.now self.now.stream.now) ∷ []) }
        ensures { slice_get (digest_range (stream_digest self.now.source.now self.now.stream.now) ∷ []) at ≡ Some result }
    {
        let _at = at;
        digest_range(stream_digest(self.source, self.stream))
    }
}

/// A reset of a stream, in its place.
#[derive(Drop)]
struct Resetting<'a> {
    place: u64,
    source: &'a Name,
    stream: &'a Name,
}

impl Query<ResetAt<'_>> for Resetting<'_> {
    ghost passes = { λ q r. is_older_reset q.place q.source.now q.stream.now r };

    ghost ranges = { λ q. digest_range (stream_digest q.source.now q.stream.now) ∷ [] };

    ghost covers = { λ q r on. older_reset_reaches q.place q.source.now q.stream.now r on };

    fn passes(&self, row: &ResetAt<'_>) -> bool {
        is_reset_of(row, self.source, self.stream) && row.place < self.place
    }

    fn range_count(&self) -> usize
        ensures { result ≡ length (digest_range (stream_digest self.now.source.now self.now.stream.now) ∷ []) }
    {
        1
    }

    fn range(&self, at: usize) -> ((u64, i64), i64)
        requires { at < length (digest_range (stream_digest self.now.source.now self.now.stream.now) ∷ []) }
        ensures { slice_get (digest_range (stream_digest self.now.source.now self.now.stream.now) ∷ []) at ≡ Some result }
    {
        let _at = at;
        digest_range(stream_digest(self.source, self.stream))
    }
}

impl Change<ResetAt<'_>> for Resetting<'_> {
    ghost after = { λ q r. reset_to q.place r };

    ghost keeps = { λ q r k there. there };

    ghost settles = { λ q r on. reset_settles q.place q.source.now q.stream.now r on };

    fn change(&self, row: &mut ResetAt<'_>) {
        row.place = self.place;
    }

    fn lost(&self) -> Option<(u64, i64)> {
        None
    }
}

fn put_reset<'a>(
    resets: &mut RowTable<ResetAt<'a>>,
    place: u64,
    source: &'a Name,
    stream: &'a Name,
) -> Result<(), OutOfMemory>
    ensures { OnOk result (resets.new ≡ put_reset place source.now stream.now resets.old) }
{
    if resets.any(&OfStream { source, stream }) {
        resets.change_all(&Resetting {
            place,
            source,
            stream,
        });
        return Ok(());
    }
    resets.push(ResetAt {
        source,
        stream,
        place,
    })
}

fn since_of(resets: &RowTable<ResetAt<'_>>, source: &Name, stream: &Name) -> u64
    ensures { result ≡ since_of resets.now source.now stream.now }
{
    match resets.first(&OfStream { source, stream }) {
        Some(reset) => reset.place,
        None => 0,
    }
}

// ---- publications

fn is_reset(kind: PubKind) -> bool
    ensures { result ≡ is_reset kind }
{
    matches!(kind, PubKind::Reset)
}

fn with_reset<'a>(
    resets: &mut RowTable<ResetAt<'a>>,
    reset: bool,
    place: u64,
    source: &'a Name,
    stream: &'a Name,
) -> Result<(), OutOfMemory>
    ensures { OnOk result (resets.new ≡ resets_with reset place source.now stream.now resets.old) }
{
    if reset {
        put_reset(resets, place, source, stream)
    } else {
        Ok(())
    }
}

/// How far the ranges of each partition have come.
#[derive(Drop)]
pub struct Marks<'a> {
    marks: RowTable<Mark<'a>>,
    resets: RowTable<ResetAt<'a>>,
}

impl<'a> Model for Marks<'a> {
    ghost use Rattle.offset_rules.specs.Marks.{History};

    ghost Value = { History };

    ghost view = { λ a. record { marks = a.marks; resets = a.resets } };
}

impl<'a> Marks<'a> {
    fn put_ranges(
        &mut self,
        place: u64,
        reset: bool,
        source: &'a Name,
        ranges: &'a Ranges,
    ) -> Result<(), OutOfMemory>
        ensures { OnOk result (self.new ≡ history_with place reset source.now ranges.now self.old) }
    {
        let stream = &ranges.stream;
        with_reset(&mut self.resets, reset, place, source, stream)?;
        let since = since_of(&self.resets, source, stream);
        let reading = Reading {
            place,
            reset,
            since,
            source,
            stream,
        };
        put_marks(&mut self.marks, &reading, ranges.parts.as_slice())
    }

    fn put(&mut self, place: u64, publication: &'a Publication) -> Result<(), OutOfMemory>
        ensures { OnOk result (self.new ≡ history_on place publication.now publication.now.ranges self.old) }
    {
        match &publication.ranges {
            Some(ranges) => self.put_ranges(
                place,
                is_reset(publication.kind),
                &publication.source,
                ranges,
            ),
            None => Ok(()),
        }
    }

    /// What the publications read, in turn. The error is want of memory.
    pub fn of(alloc: Global, publications: &'a [Publication]) -> Result<Marks<'a>, OutOfMemory>
        requires { length publications.now < 2 ^ 64 }
        ensures { IfOk result (λ made. made ≡ history_of publications.now) }
    {
        let mut marks = Marks {
            marks: RowTable::new(alloc),
            resets: RowTable::new(alloc),
        };
        let mut place = 0u64;
        for publication in publications {
            place += 1;
            marks.put(place, publication)?;
        }
        Ok(marks)
    }

    /// Where the ranges of a partition end: nothing where they don't go on from one another, and none where
    /// there are none.
    pub fn end_of(&self, source: &Name, stream: &Name, partition: u32) -> Option<Option<u64>>
        ensures { result ≡ end_of self.now source.now stream.now partition }
    {
        let since = since_of(&self.resets, source, stream);
        let mark = self.marks.first(&OfPartition {
            source,
            stream,
            partition,
        });
        end_by(since, mark)
    }
}
