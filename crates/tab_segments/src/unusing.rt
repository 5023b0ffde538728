//! Segments become unused.
ghost use Rattle.std.specs.Prelude.{◌≡◌, ◌<◌, Some, map, slice_get, true, ℕ, ℤ};
ghost use Rattle.row_index.specs.Index.{HasAll, IsIndexed};
ghost use Rattle.tab_segments.specs.Keys.{entry_keys};
ghost use Rattle.tab_segments.specs.Leading.{AreNoMore, HaveRealSpans, changed_place, is_taken, unused_entry};

use crate::entries::{Entry, used_digest};
use crate::searches::lies_within;
use iv_span::Span;
use row_index::Keys;
use seg_names::Name;
use span_keys::{RANGES, span_range};

fn unuse_entry(entry: &mut Entry, source: &Name, span: Span)
    ensures { entry.new ≡ unused_entry source.now span entry.old }
{
    if lies_within(&entry.row, source, span) {
        entry.row.used = false;
    }
}

// The segment at that place becomes unused, where it lies within the span.
fn unuse_at(entries: &mut Vec<Entry>, place: u64, source: &Name, span: Span)
    ensures { entries.new.items ≡ changed_place place (unused_entry source.now span) entries.old.items }
{
    let at = place as usize;
    if at < entries.len() {
        unuse_entry(&mut entries[at], source, span);
    }
}

// Those that have a key in the range become unused.
fn unuse_range(
    entries: &mut Vec<Entry>,
    keys: &Keys,
    range: ((u64, i64), i64),
    source: &Name,
    span: Span,
)
    ensures same { map (unused_entry source.now span) entries.new.items ≡ map (unused_entry source.now span) entries.old.items }
    ensures fewer { AreNoMore source.now span entries.old.items entries.new.items }
    ensures none { HasAll (λ s e. ⊥) (slice_get entries.new.items) (is_taken source.now span) range keys.now.entries }
{
    let (first, end) = range;
    if first.1 >= end {
        return;
    }
    for (key, _) in keys.tree().range((first, 0)..((first.0, end), 0)) {
        unuse_at(entries, key.1, source, span);
    }
}

/// Each segment of the source that lies within the span becomes unused.
pub fn unuse_in(entries: &mut Vec<Entry>, keys: &Keys, source: &Name, span: Span)
    requires indexed { IsIndexed entry_keys (slice_get entries.old.items) keys.now.entries }
    requires filled { HaveRealSpans entries.old.items }
    ensures { entries.new.items ≡ map (unused_entry source.now span) entries.old.items }
{
    for at in 0..RANGES {
        unuse_range(
            entries,
            keys,
            span_range(used_digest(source), span, at),
            source,
            span,
        );
    }
}
