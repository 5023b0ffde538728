//! A publication and the offsets that it stores.
ghost use Rattle.std.specs.Prelude.{◌++◌, ◌∷◌, ◌≡◌, OnOk, []};
ghost use Rattle.book_rows.specs.Offsets.{advanced};

use crate::OutOfMemory;
use book_rows::{Publication, Ranges};
use seg_names::Name;
use std::alloc::Global;
use stream_offsets::advance;
use tab_streams::Streams;

fn advance_by(
    streams: &mut Streams,
    alloc: Global,
    source: &Name,
    ranges: &Option<Ranges>,
) -> Result<(), OutOfMemory>
    ensures { OnOk result (streams.new ≡ record streams.old { offsets = advanced streams.old.offsets source.now ranges.now }) }
{
    match ranges {
        Some(ranges) => advance(streams, alloc, source, ranges),
        None => Ok(()),
    }
}

/// Adds the publication behind the others, and stores the ends of its ranges. The error is want of
/// memory; nothing is known of the table then.
pub fn commit(
    streams: &mut Streams,
    alloc: Global,
    publication: Publication,
) -> Result<(), OutOfMemory>
    ensures { OnOk result (streams.new ≡ record { publications = streams.old.publications ++ publication ∷ []; offsets = advanced streams.old.offsets publication.source publication.ranges }) }
{
    advance_by(streams, alloc, &publication.source, &publication.ranges)?;
    streams.push(publication)
}
