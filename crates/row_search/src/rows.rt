//! Rows that are named: the place of a row among all rows of the book.
ghost use Rattle.std.specs.Prelude.{◌+◌, ◌<◌, ◌^◌, ◌≡◌, Bool, length};
ghost use Rattle.laws_unsound.specs.Rows.{first_failing, lesser, zero_unless};

/// A test of rows.
pub trait Test<T>: Drop {
    ghost passes: { Self → T → Bool };

    /// Whether the row passes.
    fn passes(&self, row: &T) -> bool
        ensures { result ≡ passes self.now row.now };
}

/// The first row that fails a test, where so many rows stand before the table's first.
pub fn first_failing<T, C: Test<T>>(before: u64, rows: &[T], test: &C) -> Option<u64>
    requires { before + length rows.now < 2 ^ 64 }
    ensures { result ≡ first_failing before (C.passes test.now) rows.now }
{
    let mut row = before;
    for item in rows {
        if !test.passes(item) {
            return Some(row);
        }
        row += 1;
    }
    None
}

/// The lesser of two rows, where there are two.
pub fn lesser(row: Option<u64>, other: Option<u64>) -> Option<u64>
    ensures { result ≡ lesser row other }
{
    match (row, other) {
        (Some(row), Some(other)) => Some(row.min(other)),
        (Some(row), None) => Some(row),
        (None, other) => other,
    }
}

/// Row 0 where the whole book fails a test.
pub fn zero_unless(holds: bool) -> Option<u64>
    ensures { result ≡ zero_unless holds }
{
    if holds { None } else { Some(0) }
}
