//! Reading a whole snapshot.
ghost use Rattle.std.specs.Prelude.{◌≡◌, Ok, IfOk, IfErr};
ghost use Rattle.wire_fields.specs.Fields.{AreBytes};
ghost use Rattle.snap_codec.specs.Grammar.{book_at};
ghost use Rattle.snap_codec.specs.Outcomes.{Fails};
ghost use Rattle.snap_codec.specs.Snapshots.{whole, ReadsSnapshot};

use crate::fault::{ReadFault, SnapFault};
use crate::values::Read;
use book_rows::Book;
use std::alloc::Global;
use wire_fields::Cursor;

// A book, and no byte after it.
#[tactic(auto, unfolding(crate::specs::Snapshots::whole))]
fn whole(alloc: Global, bytes: &[u8]) -> Result<Book, ReadFault>
    ensures ok { IfOk result (λ b. whole book_at bytes.now ≡ Ok b) }
    ensures err { IfErr result (λ e. Fails e (whole book_at bytes.now)) }
    ensures bytes { AreBytes bytes.now }
{
    let mut cursor = Cursor::new(bytes);
    let book: Book = Read::read(alloc, &mut cursor)?;
    let left = cursor.rest();
    if left > 0 {
        drop(book);
        return Err(ReadFault::Bad { left });
    }
    Ok(book)
}

/// The book of a snapshot's bytes.
pub fn decode_book(alloc: Global, bytes: &[u8]) -> Result<Book, SnapFault>
    ensures { ReadsSnapshot bytes.now result }
{
    match whole(alloc, bytes) {
        Ok(book) => Ok(book),
        Err(ReadFault::OutOfMemory) => Err(SnapFault::OutOfMemory),
        Err(ReadFault::Bad { left }) => Err(SnapFault::BadSnapshot {
            at: bytes.len().saturating_sub(left),
        }),
    }
}
