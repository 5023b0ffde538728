//! The keys of a publication.
ghost use Rattle.std.specs.Prelude.{◌≡◌, ◌<◌, Some, fold, length, slice_get};
ghost use Rattle.row_index.specs.Digests.{mix};
ghost use Rattle.tab_streams.specs.Keys.{added_keys, entry_keys, key_of, like_digest, mix_id, mix_range, mix_ranges, mix_stream, place_of, range_from, reset_digest, stream_digest};

use book_rows::{PubKind, Publication, Range, Ranges};
use row_index::{Keyed, mix, mix_bytes};
use seg_names::SegId;

// The places among the keys of one digest end here.
const PLACE_LIMIT: u64 = 4_611_686_018_427_387_904;

/// A publication and its commit number.
#[derive(Drop)]
pub struct Entry {
    pub number: u64,
    pub row: Publication,
}

/// The id, mixed into a digest.
pub fn mix_id(digest: u64, id: &SegId) -> u64
    ensures { result ≡ mix_id digest id.now }
{
    let named = mix_bytes(mix(digest, u64::from(id.part)), id.source.bytes());
    let begun = mix(named, id.span.start().unsigned_abs());
    mix(begun, id.version.unsigned_abs())
}

fn mix_ids(digest: u64, ids: &[SegId]) -> u64
    ensures { result ≡ fold mix_id digest ids.now }
{
    let mut mixed = digest;
    for id in ids {
        mixed = mix_id(mixed, id);
    }
    mixed
}

fn mix_range(digest: u64, range: &Range) -> u64
    ensures { result ≡ mix_range digest range.now }
{
    mix(mix(digest, u64::from(range.partition)), range.start)
}

fn mix_parts(digest: u64, parts: &[Range]) -> u64
    ensures { result ≡ fold mix_range digest parts.now }
{
    let mut mixed = digest;
    for range in parts {
        mixed = mix_range(mixed, range);
    }
    mixed
}

fn mix_ranges(digest: u64, ranges: &Option<Ranges>) -> u64
    ensures { result ≡ mix_ranges digest ranges.now }
{
    match ranges {
        Some(ranges) => mix_parts(
            mix_bytes(digest, ranges.stream.bytes()),
            ranges.parts.as_slice(),
        ),
        None => digest,
    }
}

fn mix_stream(digest: u64, ranges: &Option<Ranges>) -> u64
    ensures { result ≡ mix_stream digest ranges.now }
{
    match ranges {
        Some(ranges) => mix_bytes(digest, ranges.stream.bytes()),
        None => digest,
    }
}

/// The digest of what a repeat has in common with the publication.
pub fn like_digest(row: &Publication) -> u64
    ensures { result ≡ like_digest row.now }
{
    let named = mix_bytes(mix_bytes(2, row.group.bytes()), row.source.bytes());
    let added = mix_ids(named, row.adds.as_slice());
    let emptied = mix_ids(added, row.empties.as_slice());
    mix_ranges(emptied, &row.ranges)
}

/// The digest of the publication's stream.
pub fn stream_digest(row: &Publication) -> u64
    ensures { result ≡ stream_digest row.now }
{
    mix_stream(mix_bytes(3, row.source.bytes()), &row.ranges)
}

fn reset_digest(row: &Publication) -> u64
    ensures { result ≡ reset_digest row.now }
{
    match row.kind {
        PubKind::Reset => stream_digest(row),
        PubKind::Append | PubKind::Over | PubKind::Replace | PubKind::Drop => like_digest(row),
    }
}

fn place_of(number: u64) -> u64
    ensures { result ≡ place_of number }
{
    if number < PLACE_LIMIT {
        number
    } else {
        PLACE_LIMIT
    }
}

fn key_of(digest: u64, number: u64) -> (u64, i64)
    ensures { result ≡ key_of digest number }
{
    (digest, place_of(number) as i64)
}

/// The keys of that digest and of numbers from this one on.
pub fn range_from(digest: u64, from: u64) -> ((u64, i64), i64)
    ensures { result ≡ range_from digest from }
{
    (key_of(digest, from), PLACE_LIMIT as i64 + 1)
}

fn added_at(ids: &[SegId], at: usize) -> &SegId
    requires { at < length ids.now }
    ensures { slice_get ids.now at ≡ Some result.now }
{
    &ids[at]
}

// The key of an added id, at that place of the ids.
fn added_key(ids: &[SegId], at: usize, number: u64) -> (u64, i64)
    requires { at < length ids.now }
    ensures { slice_get (added_keys number ids.now) at ≡ Some result }
{
    key_of(mix_id(1, added_at(ids, at)), number)
}

impl Keyed for Entry {
    ghost keys = { entry_keys };

    fn key_count(&self) -> usize {
        self.row.adds.as_slice().len() + 2
    }

    fn key(&self, at: usize) -> (u64, i64) {
        match at {
            0 => key_of(like_digest(&self.row), self.number),
            1 => key_of(reset_digest(&self.row), self.number),
            _ => added_key(self.row.adds.as_slice(), at - 2, self.number),
        }
    }
}
