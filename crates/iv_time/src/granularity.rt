//! How long buckets are.

/// How long a bucket of time is. A week begins on Monday, and all are in UTC.
#[derive(Clone, Copy, Debug, PartialEq, Eq)]
pub enum Granularity {
    Minute,
    FifteenMinute,
    Hour,
    Day,
    Week,
    Month,
    Year,
}
