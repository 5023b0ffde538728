//! The rows, and what they are looked for and changed by.
ghost use Rattle.std.specs.Prelude.{◌≡◌, ◌<◌, ◌==◌, [], ◌∷◌, Some, length, refl, slice_get};
ghost use Rattle.iv_span.specs.Extent.{overlap};
ghost use Rattle.row_index.specs.Index.{digest_range};
ghost use Rattle.span_keys.specs.Classes.{span_ranges};
ghost use Rattle.tests_rows.specs.Marks.{group_digest, group_key, group_keys, is_in, joined, left, mark_keys, name_digest};
ghost use Rattle.tests_rows.specs.Laws.{group_covers, joined_brings, left_keeps, name_covers, span_covers};

use iv_span::Span;
use row_index::{Keyed, Query, Ranked, digest_key, digest_range};
use row_table::{Change, Update};
use span_keys::{RANGES, span_key, span_range};

/// A row.
#[derive(Drop)]
pub struct Mark {
    pub name: u64,
    pub span: Span,
    pub group: Option<u64>,
    pub size: u64,
}

fn name_digest(name: u64) -> u64
    ensures { result ≡ name_digest name }
{
    name % 2
}

fn group_digest(group: u64) -> u64
    ensures { result ≡ group_digest group }
{
    2 + group % 2
}

fn group_key(group: Option<u64>, at: usize) -> (u64, i64)
    requires { at < length (group_keys group) }
    ensures { slice_get (group_keys group) at ≡ Some result }
{
    match group {
        Some(group) => digest_key(group_digest(group)),
        None => unreachable!(),
    }
}

impl Keyed for Mark {
    ghost keys = { mark_keys };

    fn key_count(&self) -> usize {
        match self.group {
            Some(_) => 3,
            None => 2,
        }
    }

    fn key(&self, at: usize) -> (u64, i64) {
        match at {
            0 => digest_key(name_digest(self.name)),
            1 => span_key(4, self.span),
            _ => group_key(self.group, at - 2),
        }
    }
}

impl Ranked for Mark {
    ghost rank = { λ r. r.size };

    fn rank(&self) -> u64 {
        self.size
    }
}

/// The rows of a name.
#[derive(Drop)]
pub struct Named {
    pub name: u64,
}

impl Query<Mark> for Named {
    ghost passes = { λ q r. r.name == q.name };

    ghost ranges = { λ q. digest_range (name_digest q.name) ∷ [] };

    ghost covers = { λ q r on. name_covers q.name r on };

    fn passes(&self, row: &Mark) -> bool {
        row.name == self.name
    }

    fn range_count(&self) -> usize {
        1
    }

    fn range(&self, _at: usize) -> ((u64, i64), i64) {
        digest_range(name_digest(self.name))
    }
}

/// The rows that overlap a span.
#[derive(Drop)]
pub struct Over {
    pub span: Span,
}

impl Query<Mark> for Over {
    ghost passes = { λ q r. overlap r.span q.span };

    ghost ranges = { λ q. span_ranges 4 q.span };

    ghost covers = { λ q r on. span_covers q.span r on };

    fn passes(&self, row: &Mark) -> bool {
        row.span.overlaps(self.span)
    }

    fn range_count(&self) -> usize {
        RANGES
    }

    fn range(&self, at: usize) -> ((u64, i64), i64) {
        span_range(4, self.span, at)
    }
}

fn is_of_group(row: &Mark, group: u64) -> bool
    ensures { result ≡ is_in group row.now.group }
{
    match row.group {
        Some(own) => own == group,
        None => false,
    }
}

/// The rows of a group.
#[derive(Drop)]
pub struct Grouped {
    pub group: u64,
}

impl Query<Mark> for Grouped {
    ghost passes = { λ q r. is_in q.group r.group };

    ghost ranges = { λ q. digest_range (group_digest q.group) ∷ [] };

    ghost covers = { λ q r on. group_covers q.group r on };

    fn passes(&self, row: &Mark) -> bool {
        is_of_group(row, self.group)
    }

    fn range_count(&self) -> usize {
        1
    }

    fn range(&self, _at: usize) -> ((u64, i64), i64) {
        digest_range(group_digest(self.group))
    }
}

/// The rows of a group leave it.
#[derive(Drop)]
pub struct Leaving {
    pub group: u64,
}

impl Query<Mark> for Leaving {
    ghost passes = { λ q r. is_in q.group r.group };

    ghost ranges = { λ q. digest_range (group_digest q.group) ∷ [] };

    ghost covers = { λ q r on. group_covers q.group r on };

    fn passes(&self, row: &Mark) -> bool {
        is_of_group(row, self.group)
    }

    fn range_count(&self) -> usize {
        1
    }

    fn range(&self, _at: usize) -> ((u64, i64), i64) {
        digest_range(group_digest(self.group))
    }
}

impl Change<Mark> for Leaving {
    ghost after = { λ q r. left r };

    ghost keeps = { λ q r. left_keeps r };

    ghost settles = { λ q r on. refl };

    fn change(&self, row: &mut Mark) {
        row.group = None;
    }

    fn lost(&self) -> Option<(u64, i64)> {
        Some(digest_key(group_digest(self.group)))
    }
}

/// The first row of a name joins a group.
#[derive(Drop)]
pub struct Joining {
    pub name: u64,
    pub group: u64,
}

impl Query<Mark> for Joining {
    ghost passes = { λ q r. r.name == q.name };

    ghost ranges = { λ q. digest_range (name_digest q.name) ∷ [] };

    ghost covers = { λ q r on. name_covers q.name r on };

    fn passes(&self, row: &Mark) -> bool {
        row.name == self.name
    }

    fn range_count(&self) -> usize {
        1
    }

    fn range(&self, _at: usize) -> ((u64, i64), i64) {
        digest_range(name_digest(self.name))
    }
}

impl Keyed for Joining {
    ghost keys = { λ q. group_key q.group ∷ [] };

    fn key_count(&self) -> usize {
        1
    }

    fn key(&self, _at: usize) -> (u64, i64) {
        digest_key(group_digest(self.group))
    }
}

impl Update<Mark> for Joining {
    ghost after = { λ q r. joined q.group r };

    ghost brings = { λ q r. joined_brings q.group r };

    ghost stays = { λ q p r. refl };

    fn update(self, row: &mut Mark) {
        row.group = Some(self.group);
    }
}
