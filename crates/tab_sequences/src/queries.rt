//! What sequences are looked for by.
ghost use Rattle.std.specs.Prelude.{◌≡◌, [], ◌∷◌};
ghost use Rattle.book_rows.specs.Sequences.{is_dropped_by, is_named, is_of_group, is_open};
ghost use Rattle.row_index.specs.Index.{digest_range};
ghost use Rattle.tab_sequences.specs.Covers.{named_covers, open_covers, source_covers};
ghost use Rattle.tab_sequences.specs.Keys.{group_range, name_digest, source_range};

use crate::entries::{Sequence, group_range, name_key, source_range};
use crate::states::is_unpublished;
use book_rows::SequenceRow;
use row_index::{Query, digest_range, mix_bytes};
use seg_names::{Name, TaskId};

/// Whether the sequence has this name.
pub fn has_name(sequence: &Sequence, name: &TaskId) -> bool
    ensures { result ≡ is_named name.now sequence.now }
{
    sequence.name == *name
}

/// Whether the sequence is of this group.
pub fn is_of_group(row: &SequenceRow, source: &Name, group: u32) -> bool
    ensures { result ≡ is_of_group source.now group row.now }
{
    row.source == *source && row.group == group
}

/// The range of a name.
pub fn name_range(name: &TaskId) -> ((u64, i64), i64)
    ensures { result ≡ digest_range (name_digest name.now) }
{
    digest_range(mix_bytes(1, name.bytes()))
}

/// The sequence of a name.
#[derive(Drop)]
pub struct Named<'a> {
    pub name: &'a TaskId,
}

impl Query<Sequence> for Named<'_> {
    ghost passes = { λ q u. is_named q.name.now u };

    ghost ranges = { λ q. digest_range (name_digest q.name.now) ∷ [] };

    ghost covers = { λ q u on. named_covers q.name.now u on };

    fn passes(&self, row: &Sequence) -> bool {
        has_name(row, self.name)
    }

    fn range_count(&self) -> usize {
        1
    }

    fn range(&self, _at: usize) -> ((u64, i64), i64) {
        name_range(self.name)
    }
}

/// The unpublished sequences of a group.
#[derive(Drop)]
pub struct OpenIn<'a> {
    pub source: &'a Name,
    pub group: u32,
}

impl Query<Sequence> for OpenIn<'_> {
    ghost passes = { λ q u. is_open q.source.now q.group u };

    ghost ranges = { λ q. group_range q.source.now q.group ∷ [] };

    ghost covers = { λ q u on. open_covers q.source.now q.group u on };

    fn passes(&self, row: &Sequence) -> bool {
        is_of_group(&row.row, self.source, self.group) && is_unpublished(row.row.state)
    }

    fn range_count(&self) -> usize {
        1
    }

    fn range(&self, _at: usize) -> ((u64, i64), i64) {
        group_range(self.source, self.group)
    }
}

/// The unpublished sequences of a source.
#[derive(Drop)]
pub struct OpenOf<'a> {
    pub source: &'a Name,
}

impl Query<Sequence> for OpenOf<'_> {
    ghost passes = { λ q u. is_dropped_by q.source.now u };

    ghost ranges = { λ q. source_range q.source.now ∷ [] };

    ghost covers = { λ q u on. source_covers q.source.now u on };

    fn passes(&self, row: &Sequence) -> bool {
        row.row.source == *self.source && is_unpublished(row.row.state)
    }

    fn range_count(&self) -> usize {
        1
    }

    fn range(&self, _at: usize) -> ((u64, i64), i64) {
        source_range(self.source)
    }
}
