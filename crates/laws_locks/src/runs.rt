//! Valid locks are compatible, whatever commands come.

ghost use Rattle.laws_locks.specs.Runs.{CompatibleStays, ValidLocksAreCompatible};

/// Each command, in any book, keeps that any two valid locks are compatible.
pub fn compatible_stays()
    ensures { CompatibleStays }
{}

/// So in each book that any list of commands reaches, any two valid locks are compatible.
pub fn valid_locks_are_compatible()
    ensures { ValidLocksAreCompatible }
{}
