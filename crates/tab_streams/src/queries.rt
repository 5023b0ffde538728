//! What publications are looked for by.
ghost use Rattle.std.specs.Prelude.{[], ◌∷◌};
ghost use Rattle.tab_streams.specs.Keys.{forgets_from, has_added, is_like_from, like_digest, mix_id, range_from, stream_digest};
ghost use Rattle.tab_streams.specs.Covers.{added_covers, forgets_covers, like_covers};

use crate::keys::{Entry, like_digest, mix_id, range_from, stream_digest};
use crate::likes::{forgets, is_like, is_listed};
use book_rows::Publication;
use row_index::Query;
use seg_names::SegId;

/// The publications that add an id.
#[derive(Drop)]
pub struct Adding<'a> {
    pub id: &'a SegId,
}

impl Query<Entry> for Adding<'_> {
    ghost passes = { λ q e. has_added q.id.now e };

    ghost ranges = { λ q. range_from (mix_id 1 q.id.now) 0 ∷ [] };

    ghost covers = { λ q e on. added_covers q.id.now e on };

    fn passes(&self, entry: &Entry) -> bool {
        is_listed(entry.row.adds.as_slice(), self.id)
    }

    fn range_count(&self) -> usize {
        1
    }

    fn range(&self, _at: usize) -> ((u64, i64), i64) {
        range_from(mix_id(1, self.id), 0)
    }
}

/// The publications from a number on that this one would repeat.
#[derive(Drop)]
pub struct LikeFrom<'a> {
    pub like: &'a Publication,
    pub from: u64,
}

impl Query<Entry> for LikeFrom<'_> {
    ghost passes = { λ q e. is_like_from q.from q.like.now e };

    ghost ranges = { λ q. range_from (like_digest q.like.now) q.from ∷ [] };

    ghost covers = { λ q e on. like_covers q.from q.like.now e on };

    fn passes(&self, entry: &Entry) -> bool {
        self.from <= entry.number && is_like(self.like, &entry.row)
    }

    fn range_count(&self) -> usize {
        1
    }

    fn range(&self, _at: usize) -> ((u64, i64), i64) {
        range_from(like_digest(self.like), self.from)
    }
}

/// The resets from a number on that make earlier publications count no more for this one.
#[derive(Drop)]
pub struct ForgettingFrom<'a> {
    pub like: &'a Publication,
    pub from: u64,
}

impl Query<Entry> for ForgettingFrom<'_> {
    ghost passes = { λ q e. forgets_from q.from q.like.now e };

    ghost ranges = { λ q. range_from (stream_digest q.like.now) q.from ∷ [] };

    ghost covers = { λ q e on. forgets_covers q.from q.like.now e on };

    fn passes(&self, entry: &Entry) -> bool {
        self.from <= entry.number && forgets(self.like, &entry.row)
    }

    fn range_count(&self) -> usize {
        1
    }

    fn range(&self, _at: usize) -> ((u64, i64), i64) {
        range_from(stream_digest(self.like), self.from)
    }
}
