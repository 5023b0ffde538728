//! The keys of pendings and of upgrade rows.
ghost use Rattle.std.specs.Prelude.{◌≡◌};
ghost use Rattle.std.specs.Option.{option_copied};
ghost use Rattle.tab_pending.specs.Keys.{carry_digest, lock_digest, mix_id, mix_previous, own_digest, pending_keys, request_digest, root_digest, source_digest, upgrade_keys};

use crate::ids::is_root;
use book_rows::{PendingRow, UpgradeRow};
use row_index::{Keyed, digest_key, mix, mix_bytes};
use seg_names::{Name, SegId};
use span_keys::span_key;
use std::marker::Model;

/// A pending in the table. Contracts see its row.
#[derive(Drop)]
pub struct Pending {
    pub row: PendingRow,
}

impl Model for Pending {
    ghost use Rattle.book_rows.specs.declared.rows.PendingRow.{PendingRow};

    ghost Value = { PendingRow };

    ghost view = { λ a. a.row };
}

/// An upgrade row in the table. Contracts see the row.
#[derive(Drop)]
pub struct Upgrade {
    pub row: UpgradeRow,
}

impl Model for Upgrade {
    ghost use Rattle.book_rows.specs.declared.rows.UpgradeRow.{UpgradeRow};

    ghost Value = { UpgradeRow };

    ghost view = { λ a. a.row };
}

fn mix_id(digest: u64, id: &SegId) -> u64
    ensures { result ≡ mix_id digest id.now }
{
    let named = mix_bytes(mix(digest, u64::from(id.part)), id.source.bytes());
    let begun = mix(named, id.span.start().unsigned_abs());
    mix(begun, id.version.unsigned_abs())
}

fn mix_previous(digest: u64, previous: Option<&SegId>) -> u64
    ensures { result ≡ mix_previous digest (option_copied previous.entry) }
{
    match previous {
        Some(id) => mix_id(digest, id),
        None => digest,
    }
}

/// The digest of a source.
pub fn source_digest(source: &Name) -> u64
    ensures { result ≡ source_digest source.now }
{
    mix_bytes(1, source.bytes())
}

/// The digest of what an allocation that is repeated has in common.
pub fn request_digest(source: &Name, sequence: &Name, previous: Option<&SegId>) -> u64
    ensures { result ≡ request_digest source.now sequence.now (option_copied previous.entry) }
{
    let named = mix_bytes(mix_bytes(2, source.bytes()), sequence.bytes());
    mix_previous(named, previous)
}

/// The digest of a root.
pub fn root_digest(root: &SegId) -> u64
    ensures { result ≡ root_digest root.now }
{
    mix_id(3, root)
}

/// The digest of a lock's number.
pub fn lock_digest(number: u64) -> u64
    ensures { result ≡ lock_digest number }
{
    mix(4, number)
}

/// The digest of a lock's upgrade rows, which are found by the spans of their roots.
pub fn carry_digest(number: u64) -> u64
    ensures { result ≡ carry_digest number }
{
    mix(5, number)
}

fn own_digest(row: &PendingRow) -> u64
    ensures { result ≡ own_digest row.now }
{
    if is_root(row) {
        request_digest(&row.id.source, &row.sequence, row.previous.as_ref())
    } else {
        root_digest(&row.root)
    }
}

impl Keyed for Pending {
    ghost keys = { pending_keys };

    fn key_count(&self) -> usize {
        4
    }

    fn key(&self, at: usize) -> (u64, i64) {
        let row = &self.row;
        match at {
            0 => span_key(source_digest(&row.id.source), row.id.span),
            1 => digest_key(own_digest(row)),
            2 => digest_key(root_digest(&row.root)),
            _ => digest_key(lock_digest(row.posse)),
        }
    }
}

impl Keyed for Upgrade {
    ghost keys = { upgrade_keys };

    fn key_count(&self) -> usize {
        2
    }

    fn key(&self, at: usize) -> (u64, i64) {
        match at {
            0 => digest_key(lock_digest(self.row.posse)),
            _ => span_key(carry_digest(self.row.posse), self.row.root.span),
        }
    }
}
