//! Why a publication is refused.

use crate::OutOfMemory;
use iv_span::Span;
use seg_names::SegId;

/// Why a publication isn't let through.
#[derive(Drop)]
pub enum PublishFault {
    /// This id waits under no lock of which the task is a member; it is the first one.
    NotAllocated(SegId),
    /// This span overlaps an earlier one, is that of an id which has no place among the spans, or
    /// isn't filled by a whole set of ids or by one tombstone.
    BadSpan(Span),
    /// The task is a member of this revoked lock, which overlaps a span; it is the least one.
    LockRevoked(u64),
    /// The task holds no lock of the kind that contains this span.
    LockMissing(Span),
    /// This id hasn't the version of the lock of its span.
    WrongVersion(SegId),
    /// A chunk of the version of this span's lock overlaps the span.
    VersionUsed(Span),
    /// This id waits to be published, and overlaps a span that is inserted; it is the first one.
    PendingOverlap(SegId),
    /// This root would have to be carried into a span that it overlaps and doesn't lie within; it is
    /// the first one.
    Granularity(SegId),
    /// This valid lock overlaps the span that is dropped; it is the least one.
    DropLocked(u64),
    /// This used segment overlaps the span that is dropped and doesn't lie within it; it is the
    /// first one.
    DropPartial(SegId),
    /// Memory ran out.
    OutOfMemory,
}

impl From<OutOfMemory> for PublishFault {
    ghost use Rattle.std.specs.Prelude.{◌≡◌};
    ghost use Rattle.publish_core.specs.declared.faults.PublishFault.TheVariants.{OutOfMemory};

    ghost from_gives = { λ _ fault. fault ≡ OutOfMemory };

    fn from(_error: OutOfMemory) -> PublishFault {
        PublishFault::OutOfMemory
    }
}
