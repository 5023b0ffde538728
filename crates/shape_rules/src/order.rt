//! Rows that are to ascend.
ghost use Rattle.std.specs.Prelude.{◌+◌, ◌<◌, ◌^◌, ◌≡◌, Bool, Some, false, length, true};
ghost use Rattle.std.specs.Option.{option_copied};
ghost use Rattle.book_rows.specs.Offsets.{key_cmp};
ghost use Rattle.laws_unsound.specs.Rows.{first_clashing};
ghost use Rattle.laws_unsound.specs.ShapeRows.{are_reversed, are_unordered};
ghost use Rattle.shape_rules.specs.Orders.{is_behind, number_chains, number_falls, offset_chains, offset_falls};

use book_rows::{OffsetRow, PosseRow};
use std::cmp::Ordering;

/// An order in which rows are to ascend.
pub trait Ascent<T>: Drop {
    // the first doesn't come before the second
    ghost behind: { T → T → Bool };

    /// Whether the first row doesn't come before the second.
    fn is_behind(&self, row: &T, other: &T) -> bool
        ensures { result ≡ behind row.now other.now };

    ghost chains: { (x r q : T) → behind x r ≡ true → behind r q ≡ true → behind x q ≡ true };

    ghost falls: { (x r q : T) → behind r q ≡ false → behind x q ≡ true → behind x r ≡ true };
}

// Whether the row doesn't come before the least, where there is one.
fn is_behind<T, A: Ascent<T>>(ascent: &A, row: &T, least: Option<&T>) -> bool
    ensures { result ≡ is_behind A.behind row.now (option_copied least.entry) }
{
    match least {
        Some(least) => ascent.is_behind(row, least),
        None => false,
    }
}

/// The first row that doesn't come before each later one, where so many rows stand before the table's
/// first.
pub fn first_behind<T, A: Ascent<T>>(before: u64, rows: &[T], ascent: &A) -> Option<u64>
    requires { before + length rows.now < 2 ^ 64 }
    ensures { result ≡ first_clashing before A.behind rows.now }
{
    let mut least = None;
    let mut found = None;
    let mut left = rows;
    while let Some((row, others)) = left.split_last() {
        left = others;
        if is_behind(ascent, row, least) {
            found = Some(before + others.len() as u64);
        } else {
            least = Some(row);
        }
    }
    found
}

/// Locks by their number.
#[derive(Drop)]
pub struct ByNumber;

impl Ascent<PosseRow> for ByNumber {
    ghost behind = { are_reversed };

    ghost chains = { number_chains };

    ghost falls = { number_falls };

    fn is_behind(&self, row: &PosseRow, other: &PosseRow) -> bool {
        other.number <= row.number
    }
}

fn compared(row: &OffsetRow, other: &OffsetRow) -> Ordering
    ensures { result ≡ key_cmp row.now other.now }
{
    row.source.cmp(&other.source).then(
        row.stream
            .cmp(&other.stream)
            .then(row.partition.cmp(&other.partition)),
    )
}

/// Stored offsets by source, stream and partition.
#[derive(Drop)]
pub struct ByPartition;

impl Ascent<OffsetRow> for ByPartition {
    ghost behind = { are_unordered };

    ghost chains = { offset_chains };

    ghost falls = { offset_falls };

    fn is_behind(&self, row: &OffsetRow, other: &OffsetRow) -> bool {
        !matches!(compared(row, other), Ordering::Less)
    }
}
