//! The instants that there are.
ghost use Rattle.std.specs.Prelude.{◌≡◌, IsTrue, ◌↔◌};
ghost use Rattle.iv_time.specs.Range.{is_instant, IsInstant};

/// The first instant there is: 0000-01-01T00:00:00.000 UTC, in milliseconds from the epoch.
pub const FIRST_INSTANT: i64 = -62_167_219_200_000;
/// The last instant there is: 9999-12-31T23:59:59.999 UTC, in milliseconds from the epoch.
pub const LAST_INSTANT: i64 = 253_402_300_799_999;

/// Whether a number of milliseconds is an instant.
pub fn in_range(ms: i64) -> bool
    ensures value { result ≡ is_instant ms }
    ensures range { IsTrue result ↔ IsInstant ms }
{
    FIRST_INSTANT <= ms && ms <= LAST_INSTANT
}
