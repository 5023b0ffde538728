//! The keys of a lock.
ghost use Rattle.std.specs.Prelude.{◌≡◌, ◌<◌, Some, length, slice_get};
ghost use Rattle.lock_posse.specs.Keys.{lock_keys, member_digest, member_keys, number_digest, source_digest};

use book_rows::PosseRow;
use row_index::{Keyed, Ranked, digest_key, mix, mix_bytes};
use seg_names::{Name, TaskId};
use span_keys::span_key;
use std::marker::Model;

/// A lock in the table. Contracts see its row.
#[derive(Drop)]
pub struct Lock {
    pub row: PosseRow,
}

impl Model for Lock {
    ghost use Rattle.book_rows.specs.declared.rows.PosseRow.{PosseRow};

    ghost Value = { PosseRow };

    ghost view = { λ a. a.row };
}

/// The digest of a lock's number.
pub fn number_digest(number: u64) -> u64
    ensures { result ≡ number_digest number }
{
    mix(1, number)
}

/// The digest of a lock's source.
pub fn source_digest(source: &Name) -> u64
    ensures { result ≡ source_digest source.now }
{
    mix_bytes(2, source.bytes())
}

/// The digest of a member of a lock.
pub fn member_digest(task: &TaskId) -> u64
    ensures { result ≡ member_digest task.now }
{
    mix_bytes(3, task.bytes())
}

fn member_at(members: &[TaskId], at: usize) -> &TaskId
    requires { at < length members.now }
    ensures { slice_get members.now at ≡ Some result.now }
{
    &members[at]
}

/// The key of a member, at that place of the members.
pub fn member_key(members: &[TaskId], at: usize) -> (u64, i64)
    requires { at < length members.now }
    ensures { slice_get (member_keys members.now) at ≡ Some result }
{
    digest_key(member_digest(member_at(members, at)))
}

impl Keyed for Lock {
    ghost keys = { lock_keys };

    fn key_count(&self) -> usize {
        self.row.members.as_slice().len() + 2
    }

    fn key(&self, at: usize) -> (u64, i64) {
        match at {
            0 => digest_key(number_digest(self.row.number)),
            1 => span_key(source_digest(&self.row.source), self.row.span),
            _ => member_key(self.row.members.as_slice(), at - 2),
        }
    }
}

impl Ranked for Lock {
    ghost rank = { λ p. p.number };

    fn rank(&self) -> u64 {
        self.row.number
    }
}
