//! The two ways to fill spans.
ghost use Rattle.std.specs.Prelude.{◌≡◌};
ghost use Rattle.book_rows.specs.Over.{lock_for};
ghost use Rattle.publish_core.specs.Kinds.{filling_of};

use book_rows::LockKind;

/// An insert takes the place of all that its spans have, a replacement of what they had when they
/// were locked.
#[derive(Clone, Copy)]
pub enum Filling {
    /// `insert`.
    Inserting,
    /// `replace`.
    Replacing,
}

/// The kind of the lock that each span needs.
pub fn lock_for(filling: Filling) -> LockKind
    ensures { result ≡ lock_for (filling_of filling) }
{
    match filling {
        Filling::Inserting => LockKind::Exclusive,
        Filling::Replacing => LockKind::Replace,
    }
}
