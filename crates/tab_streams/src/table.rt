//! The table.
ghost use Rattle.std.specs.Prelude.{◌++◌, ◌∷◌, ◌≡◌, IfOk, OnErr, OnOk, [], bytes_eq, filter, length, nat_lt, slice_get, true};
ghost use Rattle.std.specs.Option.{option_copied};
ghost use Rattle.book_rows.specs.Contents.{commit_of};
ghost use Rattle.book_rows.specs.Lists.{list_links};
ghost use Rattle.book_rows.specs.Offsets.{cleared, reset_to, set_row, stored};
ghost use Rattle.book_rows.specs.Publications.{repeat_of};

use crate::OutOfMemory;
use crate::offsets::Offsets;
use crate::publications::Publications;
use book_rows::{Offset, OffsetRow, Publication};
use seg_names::{Name, SegId};
use std::alloc::Global;
use std::marker::Model;

/// The publications, each under its commit number, and the stored offsets.
///
/// A contract sees the list of publications in the order in which they were added, and the list of
/// offsets by source, stream and partition. No two offsets have one partition of one stream.
#[derive(Drop)]
pub struct Streams {
    publications: Publications,
    offsets: Offsets,
}

impl Model for Streams {
    ghost use Rattle.tab_streams.specs.StreamRows.{StreamRows};

    ghost Value = { StreamRows };

    ghost view = { λ a. record { publications = a.publications; offsets = a.offsets } };
}

impl Streams {
    /// No publications and no offsets.
    pub fn new(alloc: Global) -> Streams
        ensures { result ≡ record { publications = []; offsets = [] } }
    {
        Streams {
            publications: Publications::new(alloc),
            offsets: Offsets::new(alloc),
        }
    }

    /// How many publications there are. The next one has this commit number.
    pub fn count(&self) -> u64
        ensures { result ≡ length self.now.publications }
    {
        self.publications.count() as u64
    }

    /// The publication of a commit number.
    pub fn publication(&self, commit: u64) -> Option<&Publication>
        ensures { option_copied result ≡ slice_get self.now.publications commit }
    {
        self.publications.get(commit)
    }

    /// The commit number of the first publication that adds the id.
    pub fn commit_of(&self, id: &SegId) -> Option<u64>
        ensures { result ≡ commit_of self.now.publications id.now }
    {
        self.publications.first_adding(id)
    }

    /// The commit number of the first publication that this one would repeat. What its spans say of
    /// their locks isn't compared.
    pub fn repeat(&self, like: &Publication) -> Option<u64>
        ensures { result ≡ repeat_of like.now self.now.publications }
    {
        self.publications.first_repeated(like)
    }

    /// Adds a publication behind the others. The error is want of memory, and leaves the table as it
    /// was.
    pub fn push(&mut self, row: Publication) -> Result<(), OutOfMemory>
        ensures ok { OnOk result (self.new ≡ record self.old { publications = self.old.publications ++ row ∷ [] }) }
        ensures err { OnErr result (self.new ≡ self.old) }
    {
        self.publications.push(row)
    }

    /// How many offsets are stored.
    pub fn offset_count(&self) -> usize
        ensures { result ≡ length self.now.offsets }
    {
        self.offsets.count()
    }

    /// The stored offset of a partition of the stream.
    pub fn stored(&self, source: &Name, stream: &Name, partition: u32) -> Option<u64>
        ensures { result ≡ stored self.now.offsets source.now stream.now partition }
    {
        self.offsets.stored(source, stream, partition)
    }

    /// The stored offsets of a source, by stream and partition. The error is want of memory.
    pub fn offsets_of(&self, alloc: Global, source: &Name) -> Result<Vec<OffsetRow>, OutOfMemory>
        ensures { IfOk result (λ rows. rows.items ≡ filter (λ r. bytes_eq r.source source.now) self.now.offsets) }
    {
        self.offsets.rows_of(alloc, source)
    }

    /// How many offsets there would be after a reset of the stream to these, whose partitions ascend.
    pub fn reset_count(&self, source: &Name, stream: &Name, offsets: &[Offset]) -> usize
        requires { list_links (λ a b. nat_lt a.partition b.partition) offsets.now ≡ true }
        ensures { result ≡ length (reset_to self.now.offsets source.now stream.now offsets.now) }
    {
        self.offsets.count_after(source, stream, offsets)
    }

    /// Stores an offset, over the one of its partition where there is one. The error is want of
    /// memory, and leaves the table as it was.
    pub fn set(&mut self, row: OffsetRow) -> Result<(), OutOfMemory>
        ensures ok { OnOk result (self.new ≡ record self.old { offsets = set_row row self.old.offsets }) }
        ensures err { OnErr result (self.new ≡ self.old) }
    {
        self.offsets.set(row)
    }

    /// Puts these offsets in the place of the stream's, the last of a partition where it is there
    /// more than once. The error is want of memory, and leaves the table as it was.
    pub fn reset_stream(
        &mut self,
        alloc: Global,
        source: &Name,
        stream: &Name,
        offsets: &[Offset],
    ) -> Result<(), OutOfMemory>
        ensures ok { OnOk result (self.new ≡ record self.old { offsets = reset_to self.old.offsets source.now stream.now offsets.now }) }
        ensures err { OnErr result (self.new ≡ self.old) }
    {
        self.offsets.reset(alloc, source, stream, offsets)
    }

    /// The stream's offsets go. It takes no memory.
    pub fn clear_stream(&mut self, source: &Name, stream: &Name)
        ensures { self.new ≡ record self.old { offsets = cleared self.old.offsets source.now stream.now } }
    {
        self.offsets.clear(source, stream);
    }
}
