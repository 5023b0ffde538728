//! Which hour a block is about, and when it comes.
ghost use Rattle.std.specs.Prelude.{◌≡◌, ◌<◌, ◌≤◌, IfSome, true};
ghost use Rattle.load_gen.specs.Draws.{draw, hour_of, now_of, span_of};

use iv_span::Span;

// The steps of the numbers that are drawn, modulo 2^64.
const FACTOR: u128 = 6_364_136_223_846_793_005;

const STEP: u128 = 1_442_695_040_888_963_407;

const MODULUS: u128 = 18_446_744_073_709_551_616;

/// How many hours there are to draw from.
pub const HOURS: usize = 720;

const HOUR: i64 = 3_600_000;

// 2024-01-01T00:00 UTC, where the first hour begins.
const FIRST_HOUR: i64 = 1_704_067_200_000;

// 2025-01-01T00:00 UTC, the moment of the first block.
const FIRST_MOMENT: i64 = 1_735_689_600_000;

/// The number that is drawn after this one.
pub fn draw(drawn: u64) -> u64
    ensures { result ≡ draw drawn }
{
    ((u128::from(drawn) * FACTOR + STEP) % MODULUS) as u64
}

/// The hour of a number.
pub fn hour_of(drawn: u64) -> usize
    ensures hour { result ≡ hour_of drawn }
    ensures below { result < 720 }
{
    (drawn / 8_589_934_592 % 720) as usize
}

/// The span of an hour.
pub fn span_of(hour: usize) -> Span
    requires { hour < 720 }
    ensures { result ≡ span_of hour }
{
    let start = FIRST_HOUR + HOUR * hour as i64;
    match Span::new(start, start + HOUR) {
        Ok(span) => span,
        Err(_) => unreachable!(),
    }
}

/// The moment of a block.
pub fn now_of(block: u64) -> i64
    requires { block < 50000 }
    ensures { result ≡ now_of block }
{
    FIRST_MOMENT + 1_000 * block as i64
}
