//! What goes with locks that are revoked or end.
ghost use Rattle.std.specs.Prelude.{◌≡◌};
ghost use Rattle.book_rows.specs.Lists.{stands_in};
ghost use Rattle.book_rows.specs.Locks.{stripped, stripped_upgrades};

use crate::keys::{Pending, Upgrade};
use crate::pending_queries::OfLock;
use crate::upgrade_queries::UpgradeOf;
use row_table::RowTable;

/// The pendings of these locks go.
pub fn strip_pendings(rows: &mut RowTable<Pending>, locks: &[u64])
    ensures { rows.new ≡ stripped (stands_in locks.now) rows.old }
{
    for lock in locks {
        rows.remove_all(&OfLock { lock: *lock });
    }
}

/// The upgrade rows of these locks go.
pub fn strip_upgrades(rows: &mut RowTable<Upgrade>, locks: &[u64])
    ensures { rows.new ≡ stripped_upgrades (stands_in locks.now) rows.old }
{
    for lock in locks {
        rows.remove_all(&UpgradeOf { lock: *lock });
    }
}
