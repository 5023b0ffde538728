//! The shape of a book, the first of the rules.
ghost use Rattle.std.specs.Prelude.{◌≡◌, IfOk};
ghost use Rattle.laws_unsound.specs.Unsound.{Shape, row_of};
ghost use Rattle.row_search.specs.Starts.{IsCounted};

use book_rows::Book;
use limit_rules::limit_rows::{limit_row, number_row};
use row_search::OutOfMemory;
use row_search::id_chunks::ByChunk;
use row_search::index::index;
use row_search::rows::lesser;
use row_search::starts::Starts;
use shape_rules::key_rows::{key_row, version_row};
use shape_rules::members::member_row;
use shape_rules::reference_rows::{commit_row, id_row};
use shape_rules::roots::root_row;
use std::alloc::Global;

/// The least row that breaks the shape. The error is want of memory.
pub fn shape_row(alloc: Global, book: &Book, starts: Starts) -> Result<Option<u64>, OutOfMemory>
    requires { IsCounted book.now starts }
    ensures { IfOk result (λ row. row ≡ row_of Shape book.now) }
{
    let chunks = index(alloc, book.chunks.as_slice(), &ByChunk)?;
    let segments = book.segments.as_slice();
    let publications = book.publications.as_slice();
    let row = lesser(
        root_row(alloc, starts.segments, &chunks, publications, segments)?,
        None,
    );
    let row = lesser(commit_row(book, starts), row);
    let row = lesser(id_row(&chunks, book, starts), row);
    let row = lesser(
        member_row(
            alloc,
            starts.posses,
            book.tasks.as_slice(),
            book.posses.as_slice(),
        )?,
        row,
    );
    let row = lesser(version_row(alloc, book, starts)?, row);
    let row = lesser(key_row(alloc, book, starts)?, row);
    let row = lesser(number_row(book, starts), row);
    Ok(lesser(limit_row(book, starts), row))
}
