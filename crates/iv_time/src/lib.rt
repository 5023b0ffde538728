//! Instants, their texts, and the buckets that have them.
//!
//! An instant is a number of milliseconds from 1970-01-01T00:00 UTC, between the first of the year 0
//! and the last of the year 9999 of the proleptic Gregorian calendar.
#![tactic(auto)]

mod buckets;
mod dates;
mod durations;
mod granularity;
mod laws;
mod range;
mod reading;
mod writing;

pub use buckets::{bucket, finer};
pub use durations::{BadDuration, parse_duration};
pub use granularity::Granularity;
pub use laws::reads_back_itself;
pub use range::{FIRST_INSTANT, LAST_INSTANT, in_range};
pub use reading::{BadInstant, parse};
pub use writing::write;
