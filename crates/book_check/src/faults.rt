//! Why a book isn't sound.

use row_search::OutOfMemory;

/// Why a book wasn't found sound.
#[derive(Clone, Copy, Debug, PartialEq, Eq)]
pub enum CheckFault {
    /// It breaks a rule.
    Unsound {
        /// The number of the first rule that it breaks, from 0.
        rule: u32,
        /// The place of the least row that breaks it, among all rows of the book from 0.
        row: u64,
    },
    /// Memory ran out.
    OutOfMemory,
}

impl From<OutOfMemory> for CheckFault {
    ghost use Rattle.std.specs.Prelude.{◌≡◌};
    ghost use Rattle.book_check.specs.declared.faults.CheckFault.TheVariants.{OutOfMemory};

    ghost from_gives = { λ _ fault. fault ≡ OutOfMemory };

    fn from(_error: OutOfMemory) -> CheckFault {
        CheckFault::OutOfMemory
    }
}
