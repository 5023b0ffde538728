//! Keys of segments that are used no more leave the index.
//!
//! A key that stays does no harm but that look-ups meet it. So no clause says which go: only that
//! each segment keeps its own.
ghost use Rattle.std.specs.Prelude.{◌<◌, slice_get};
ghost use Rattle.row_index.specs.Index.{IsIndexed};
ghost use Rattle.tab_segments.specs.Keys.{entry_keys};

use crate::entries::{Entry, used_digest, used_key};
use iv_span::Span;
use row_index::{Keys, Numbered, drop_lost_key};
use seg_names::Name;
use span_keys::{RANGES, span_range};

// The first key of the digest from this one on and before that place.
fn next_key(keys: &Keys, from: ((u64, i64), u64), end: i64) -> Option<((u64, i64), u64)> {
    if from.0.1 >= end {
        return None;
    }
    let mut range = keys.tree().range(from..((from.0.0, end), 0));
    match range.next() {
        Some((key, _)) => Some(*key),
        None => None,
    }
}

// The keys that the segment may have had and hasn't any more go.
fn clear_place(entries: &Vec<Entry>, keys: &mut Keys, place: u64)
    requires { IsIndexed entry_keys (slice_get entries.now.items) keys.old.entries }
    ensures { IsIndexed entry_keys (slice_get entries.now.items) keys.new.entries }
{
    if let Some(entry) = entries.row(place) {
        for at in 0..3 {
            drop_lost_key(keys, place, entry, used_key(&entry.row.id, true, at));
        }
    }
}

fn clear_range(entries: &Vec<Entry>, keys: &mut Keys, range: ((u64, i64), i64))
    requires { IsIndexed entry_keys (slice_get entries.now.items) keys.old.entries }
    ensures { IsIndexed entry_keys (slice_get entries.now.items) keys.new.entries }
{
    let (first, end) = range;
    let mut from = (first, 0);
    for _ in 0..keys.count() {
        match next_key(keys, from, end) {
            Some(key) if key.1 < u64::MAX => {
                clear_place(entries, keys, key.1);
                from = (key.0, key.1 + 1);
            }
            _ => return,
        }
    }
}

/// The keys of the segments over the span that are used no more go.
pub fn clear_keys(entries: &Vec<Entry>, keys: &mut Keys, source: &Name, span: Span)
    requires { IsIndexed entry_keys (slice_get entries.now.items) keys.old.entries }
    ensures { IsIndexed entry_keys (slice_get entries.now.items) keys.new.entries }
{
    for at in 0..RANGES {
        clear_range(entries, keys, span_range(used_digest(source), span, at));
    }
}
