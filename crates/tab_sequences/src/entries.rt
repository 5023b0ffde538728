//! A sequence in the table, and its keys.
ghost use Rattle.std.specs.Prelude.{◌≡◌, ◌<◌, Some, fold, length, slice_get};
ghost use Rattle.row_index.specs.Digests.{mix};
ghost use Rattle.row_index.specs.Index.{digest_key};
ghost use Rattle.book_rows.specs.Sequences.{name_of};
ghost use Rattle.tab_sequences.specs.Keys.{group_key, group_place, group_range, live_digest, live_keys, name_key, open_key, sequence_keys, source_range};

use crate::states::is_unpublished;
use book_rows::SequenceRow;
use row_index::{Keyed, digest_key, mix_bytes};
use seg_names::{Name, TaskId};
use std::marker::Model;

// The places among the keys of one source end here.
const PLACE_LIMIT: u64 = 4_294_967_296;

/// A sequence with its name. Contracts see its row.
#[derive(Drop)]
pub struct Sequence {
    pub row: SequenceRow,
    pub name: TaskId,
}

impl Model for Sequence {
    ghost use Rattle.std.specs.Prelude.{◌≡◌};
    ghost use Rattle.book_rows.specs.Sequences.{name_of};
    ghost use Rattle.book_rows.specs.declared.rows.SequenceRow.{SequenceRow};

    ghost Value = { SequenceRow };

    ghost view = { λ a. a.row };

    ghost invariant = { λ a. a.name ≡ name_of a.row };
}

/// The key of a name.
pub fn name_key(name: &TaskId) -> (u64, i64)
    ensures { result ≡ name_key name.now }
{
    digest_key(mix_bytes(1, name.bytes()))
}

/// The digest of a live replica.
pub fn live_digest(task: &TaskId) -> u64
    ensures { result ≡ live_digest task.now }
{
    mix_bytes(3, task.bytes())
}

fn place_of(group: u64) -> u64
    ensures { result ≡ group_place group }
{
    if group < PLACE_LIMIT {
        group
    } else {
        PLACE_LIMIT
    }
}

/// The key of the unpublished sequences of a group.
pub fn group_key(source: &Name, group: u32) -> (u64, i64)
    ensures { result ≡ group_key source.now group }
{
    (
        mix_bytes(2, source.bytes()),
        place_of(u64::from(group)) as i64,
    )
}

/// The range of that key.
pub fn group_range(source: &Name, group: u32) -> ((u64, i64), i64)
    ensures { result ≡ group_range source.now group }
{
    (
        group_key(source, group),
        place_of(u64::from(group)) as i64 + 1,
    )
}

/// The range of the keys of all groups of a source.
pub fn source_range(source: &Name) -> ((u64, i64), i64)
    ensures { result ≡ source_range source.now }
{
    ((mix_bytes(2, source.bytes()), 0), PLACE_LIMIT as i64 + 1)
}

fn live_at(live: &[TaskId], at: usize) -> &TaskId
    requires { at < length live.now }
    ensures { slice_get live.now at ≡ Some result.now }
{
    &live[at]
}

// The key of a live replica, at that place of the live ones.
fn live_key(live: &[TaskId], at: usize) -> (u64, i64)
    requires { at < length live.now }
    ensures { slice_get (live_keys live.now) at ≡ Some result }
{
    digest_key(live_digest(live_at(live, at)))
}

// An unpublished sequence is found by its group. Any other has the key of its name once more.
fn open_key(row: &SequenceRow, name: &TaskId) -> (u64, i64)
    requires { name.now ≡ name_of row.now }
    ensures { result ≡ open_key row.now }
{
    if is_unpublished(row.state) {
        group_key(&row.source, row.group)
    } else {
        name_key(name)
    }
}

impl Keyed for Sequence {
    ghost keys = { sequence_keys };

    fn key_count(&self) -> usize {
        self.row.live.as_slice().len() + 2
    }

    fn key(&self, at: usize) -> (u64, i64) {
        match at {
            0 => name_key(&self.name),
            1 => open_key(&self.row, &self.name),
            _ => live_key(self.row.live.as_slice(), at - 2),
        }
    }
}
