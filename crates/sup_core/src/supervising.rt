//! A supervisor in the table, and how it is found.
ghost use Rattle.std.specs.Prelude.{◌≡◌, [], ◌∷◌, bytes_eq, fold};
ghost use Rattle.row_index.specs.Digests.{mix};
ghost use Rattle.row_index.specs.Index.{digest_key, digest_range};
ghost use Rattle.sup_core.specs.Keys.{source_covers, source_digest};

use book_rows::SupervisorRow;
use row_index::{Keyed, Query, digest_key, digest_range, mix_bytes};
use seg_names::Name;
use std::marker::Model;

/// A supervisor in the table. Contracts see its row.
#[derive(Drop)]
pub struct Supervisor {
    pub row: SupervisorRow,
}

impl Model for Supervisor {
    ghost use Rattle.book_rows.specs.declared.rows.SupervisorRow.{SupervisorRow};

    ghost Value = { SupervisorRow };

    ghost view = { λ a. a.row };
}

fn source_digest(source: &Name) -> u64
    ensures { result ≡ source_digest source.now }
{
    mix_bytes(1, source.bytes())
}

impl Keyed for Supervisor {
    ghost keys = { λ s. digest_key (source_digest s.source) ∷ [] };

    fn key_count(&self) -> usize {
        1
    }

    fn key(&self, _at: usize) -> (u64, i64) {
        digest_key(source_digest(&self.row.source))
    }
}

/// The supervisor of a source.
#[derive(Drop)]
pub struct OfSource<'a> {
    pub source: &'a Name,
}

impl Query<Supervisor> for OfSource<'_> {
    ghost passes = { λ q s. bytes_eq s.source q.source.now };

    ghost ranges = { λ q. digest_range (source_digest q.source.now) ∷ [] };

    ghost covers = { λ q s on. source_covers q.source.now s on };

    fn passes(&self, row: &Supervisor) -> bool {
        row.row.source == *self.source
    }

    fn range_count(&self) -> usize {
        1
    }

    fn range(&self, _at: usize) -> ((u64, i64), i64) {
        digest_range(source_digest(self.source))
    }
}
