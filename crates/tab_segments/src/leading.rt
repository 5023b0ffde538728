//! Look-ups that the leading segments answer.
ghost use Rattle.std.specs.Prelude.{◌≡◌, ◌&&◌, find, not, slice_get};
ghost use Rattle.std.specs.List.{list_any};
ghost use Rattle.std.specs.Option.{option_copied, option_map};
ghost use Rattle.book_rows.specs.Visible.{is_used_over};
ghost use Rattle.row_index.specs.Index.{IsIndexed};
ghost use Rattle.tab_segments.specs.Keys.{entry_keys};
ghost use Rattle.tab_segments.specs.Leading.{AreLed, leads_and, leads_in, rows_in};

use crate::entries::Entry;
use crate::queries::{LeadingIn, LeadingOver};
use crate::searches::{ChunkTest, Every};
use book_rows::SegmentRow;
use iv_span::Span;
use row_index::{Keys, Numbered, Query, first_number, has_any};
use seg_names::{Name, SegId};

// The first entry that passes.
fn first_entry<'a, Q: Query<Entry>>(
    entries: &'a Vec<Entry>,
    keys: &Keys,
    query: &Q,
) -> Option<&'a Entry>
    requires { IsIndexed entry_keys (slice_get entries.now.items) keys.now.entries }
    ensures { option_copied result ≡ find (Q.passes query.now) entries.now.items }
{
    match first_number::<Entry, Vec<Entry>, Q>(entries, keys, query) {
        Some(number) => entries.row(number),
        None => None,
    }
}

// Whether an entry passes.
fn any_entry<Q: Query<Entry>>(entries: &Vec<Entry>, keys: &Keys, query: &Q) -> bool
    requires { IsIndexed entry_keys (slice_get entries.now.items) keys.now.entries }
    ensures { result ≡ list_any (Q.passes query.now) entries.now.items }
{
    has_any::<Entry, Vec<Entry>, Q>(entries, keys, query)
}

/// The first used segment of the source that overlaps the span and passes the test.
pub fn first_over<'a, T: ChunkTest>(
    entries: &'a Vec<Entry>,
    keys: &Keys,
    source: &Name,
    span: Span,
    test: &T,
) -> Option<&'a SegId>
    requires indexed { IsIndexed entry_keys (slice_get entries.now.items) keys.now.entries }
    requires led { AreLed entries.now.items }
    ensures { option_copied result ≡ option_map (λ r. r.id) (find (λ r. is_used_over source.now span r && T.passes test.now r) (rows_in entries.now.items)) }
{
    match first_entry(entries, keys, &LeadingOver { source, span, test }) {
        Some(entry) => Some(&entry.row.id),
        None => None,
    }
}

/// Whether a used segment of the source overlaps the span.
pub fn any_over(entries: &Vec<Entry>, keys: &Keys, source: &Name, span: Span) -> bool
    requires indexed { IsIndexed entry_keys (slice_get entries.now.items) keys.now.entries }
    requires led { AreLed entries.now.items }
    ensures { result ≡ list_any (is_used_over source.now span) (rows_in entries.now.items) }
{
    let every = Every;
    let asked = LeadingOver {
        source,
        span,
        test: &every,
    };
    any_entry(entries, keys, &asked)
}

/// Whether the segment leads its chunk where it is added behind these.
pub fn leads_chunk(entries: &Vec<Entry>, keys: &Keys, row: &SegmentRow) -> bool
    requires { IsIndexed entry_keys (slice_get entries.now.items) keys.now.entries }
    ensures { result ≡ (row.now.used && not (list_any (leads_in row.now.id) entries.now.items)) }
{
    row.used && !any_entry(entries, keys, &LeadingIn { id: &row.id })
}
