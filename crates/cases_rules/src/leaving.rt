//! Leaving locks, and what goes with a lock that is revoked or ends: its pendings with their copies, and what it had to carry.

ghost use Rattle.cases_rules.specs.LeaveCases.{UnlockOwn, UnlockEnds, MemberComesBack, RevokedIsLeft, UnlockTakesCopies, EndTakesPendings, RevocationTakesCopies, LeavingForgets, RevocationForgets};

/// A task leaves a lock of which it is a member, once, and no other number.
pub fn unlock_own()
    ensures { UnlockOwn }
{}

/// The last member takes the lock away and changes nothing else; leaving another lock changes nothing.
pub fn unlock_ends()
    ensures { UnlockEnds }
{}

/// Another member keeps the lock, and who comes back joins as the last.
pub fn member_comes_back()
    ensures { MemberComesBack }
{}

/// A revoked lock stays with its members, and goes when the last one leaves it.
pub fn revoked_is_left()
    ensures { RevokedIsLeft }
{}

/// A lock that its task leaves takes its pendings and their copies along, and no other lock's; the end of the replacing lock takes none.
pub fn unlock_takes_copies()
    ensures { UnlockTakesCopies }
{}

/// A task that ends takes all its pendings along; chunks stay, with the parts that were given.
pub fn end_takes_pendings()
    ensures { EndTakesPendings }
{}

/// A lock that is revoked takes its pendings and their copies along.
pub fn revocation_takes_copies()
    ensures { RevocationTakesCopies }
{}

/// What a replacing lock has to carry is forgotten when its task leaves it or ends, and not when the appending task does.
pub fn leaving_forgets()
    ensures { LeavingForgets }
{}

/// It is forgotten with the revocation, and what was appended stays.
pub fn revocation_forgets()
    ensures { RevocationForgets }
{}
