//! Laws of the bytes of books.
ghost use Rattle.std.specs.Prelude.{◌≡◌, ℕ, List, Ok};
ghost use Rattle.book_rows.specs.Shape.{IsLimited};
ghost use Rattle.book_rows.specs.declared.rows.Book.{Book};
ghost use Rattle.wire_fields.specs.Fields.{AreBytes};
ghost use Rattle.snap_codec.specs.Rows.{book_field};
ghost use Rattle.snap_codec.specs.Fits.{IsSpelled, AreMarked};
ghost use Rattle.snap_codec.specs.Snapshots.{book_of};
ghost use Rattle.snap_codec.specs.Earlier.{earlier_book_of, HasNoTombstones};

/// The bytes of a book read as that book, and bytes that read as a book are that book's.
pub fn reads_what_it_writes()
    ensures written { (b : Book) → IsSpelled b → book_of (book_field b) ≡ Ok b }
    ensures read { (bytes : List ℕ) (b : Book) → AreBytes bytes → book_of bytes ≡ Ok b → (bytes ≡ book_field b) × IsSpelled b }
{}

/// A snapshot of before there were tombstones reads as the same book, which has none; and such a
/// book's bytes are such a snapshot.
pub fn reads_earlier_snapshots()
    ensures read { (bytes : List ℕ) (b : Book) → AreBytes bytes → earlier_book_of bytes ≡ Ok b → (book_of bytes ≡ Ok b) × HasNoTombstones b }
    ensures written { (b : Book) → IsSpelled b → HasNoTombstones b → earlier_book_of (book_field b) ≡ Ok b }
{}

/// A book within its limits can be written, and so can a book that was read.
pub fn writes_limited_books()
    ensures limited { (b : Book) → IsLimited b → AreMarked b.publications }
    ensures spelled { (b : Book) → IsSpelled b → AreMarked b.publications }
{}
