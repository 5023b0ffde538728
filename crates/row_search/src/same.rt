//! Rows that have a key in common, found by its digest.
ghost use Rattle.std.specs.Prelude.{ℕ, ◌≡◌, [], ◌∷◌, Bool, true};
ghost use Rattle.row_index.specs.Index.{digest_key, digest_range};
ghost use Rattle.row_search.specs.Reached.{digest_reaches};

use crate::index::{Keying, Seeking};
use row_index::{digest_key, digest_range};

/// What rows have in common.
pub trait Same<T>: Drop {
    ghost same: { T → T → Bool };

    ghost digest: { T → ℕ };

    /// Whether the rows have it in common.
    fn same(&self, row: &T, other: &T) -> bool
        ensures { result ≡ same row.now other.now };

    /// A digest of it.
    fn digest(&self, row: &T) -> u64
        ensures { result ≡ digest row.now };

    ghost agrees: { (r q : T) → same r q ≡ true → digest q ≡ digest r };
}

/// Rows stand under the digest of what they may have in common.
#[derive(Drop)]
pub struct BySame<S> {
    pub same: S,
}

impl<T, S: Same<T>> Keying<T> for BySame<S> {
    ghost key = { λ r. digest_key (S.digest r) };

    fn key(&self, row: &T) -> (u64, i64) {
        digest_key(self.same.digest(row))
    }
}

impl<T, S: Same<T>> Seeking<T, T> for BySame<S> {
    ghost holds = { λ s r q. S.same r q };

    ghost ranges = { λ r. digest_range (S.digest r) ∷ [] };

    ghost reaches = { λ s r q on. digest_reaches (S.digest r) (S.digest q) (S.agrees r q on) };

    fn holds(&self, asked: &T, row: &T) -> bool {
        self.same.same(asked, row)
    }

    fn range_count(&self, _asked: &T) -> usize {
        1
    }

    fn range(&self, asked: &T, _at: usize) -> ((u64, i64), i64) {
        digest_range(self.same.digest(asked))
    }
}
