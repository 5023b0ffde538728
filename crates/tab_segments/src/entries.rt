//! A segment in the table, and its keys.
ghost use Rattle.std.specs.Prelude.{◌≡◌, ◌<◌, ◌&&◌, Some, length, slice_get};
ghost use Rattle.seg_names.specs.Ids.{same_extent};
ghost use Rattle.tab_segments.specs.Keys.{chunk_digest, entry_keys, lead_digest, mix_span, used_digest, used_keys};
ghost use Rattle.tab_segments.specs.SegmentRows.{chunk_id};

use book_rows::SegmentRow;
use iv_span::Span;
use row_index::{Keyed, digest_key, mix, mix_bytes};
use seg_names::{Name, SegId};
use span_keys::span_key;

/// A segment, and whether it leads its chunk: it was used, and no used segment of its chunk stood
/// before it.
#[derive(Drop)]
pub struct Entry {
    pub row: SegmentRow,
    pub leads: bool,
}

fn mix_span(digest: u64, span: Span) -> u64
    ensures { result ≡ mix_span digest span }
{
    mix(
        mix(digest, span.start().unsigned_abs()),
        span.end().unsigned_abs(),
    )
}

/// The digest of a chunk.
pub fn chunk_digest(source: &Name, span: Span, version: i64) -> u64
    ensures { result ≡ chunk_digest (chunk_id source.now span version) }
{
    let named = mix_bytes(1, source.bytes());
    mix(mix_span(named, span), version.unsigned_abs())
}

/// The digest under which the leading segments of a source stand.
pub fn lead_digest(source: &Name) -> u64
    ensures { result ≡ lead_digest source.now }
{
    mix_bytes(3, source.bytes())
}

/// The digest under which the used segments of a source stand.
pub fn used_digest(source: &Name) -> u64
    ensures { result ≡ used_digest source.now }
{
    mix_bytes(4, source.bytes())
}

/// Whether the spans have the same ends.
pub fn same_span(left: Span, right: Span) -> bool
    ensures { result ≡ same_extent left right }
{
    left.start() == right.start() && left.end() == right.end()
}

/// The key of a used segment, by its place among these.
pub fn used_key(id: &SegId, leads: bool, at: usize) -> (u64, i64)
    requires { at < length (used_keys leads id.now) }
    ensures { slice_get (used_keys leads id.now) at ≡ Some result }
{
    match at {
        0 => span_key(used_digest(&id.source), id.span),
        1 => digest_key(chunk_digest(&id.source, id.span, id.version)),
        _ => span_key(lead_digest(&id.source), id.span),
    }
}

fn used_count(leads: bool, id: &SegId) -> usize
    ensures { result ≡ length (used_keys leads id.now) }
{
    if leads { 3 } else { 1 }
}

impl Keyed for Entry {
    ghost keys = { entry_keys };

    fn key_count(&self) -> usize {
        if self.row.used {
            used_count(self.leads, &self.row.id)
        } else {
            0
        }
    }

    fn key(&self, at: usize) -> (u64, i64) {
        used_key(&self.row.id, self.leads, at)
    }
}
