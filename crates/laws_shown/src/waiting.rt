//! Pendings that wait.

ghost use Rattle.laws_shown.specs.Waiting.{PendingsStay, PendingsWait};

/// A pending of a sound book is still there after any command, unless that appends its root or its lock isn't
/// valid any more.
pub fn pendings_wait()
    ensures { PendingsWait }
{}

/// Over any list of commands through sound books it stays as long as its lock is valid and its root isn't appended.
pub fn pendings_stay()
    ensures { PendingsStay }
{}
