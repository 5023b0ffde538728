//! Why ranges don't go on from the stored offsets.

/// Why the first range, by partition, that doesn't go on from what is stored doesn't.
#[derive(Clone, Copy, Debug, PartialEq, Eq)]
pub enum OffsetFault {
    /// The range of this partition starts above its end.
    BadRange(u32),
    /// The range of this partition doesn't start at this offset, which is the stored one.
    Mismatch(u32, u64),
}
