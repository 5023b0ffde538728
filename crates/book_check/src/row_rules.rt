//! The rules on rows: those that nothing decides of what is shown, read or carried.
//!
//! Each function asks a rule, and those behind it where no row breaks it.
ghost use Rattle.std.specs.Prelude.{◌∷◌, ◌≡◌, [], IfOk, map};
ghost use Rattle.laws_unsound.specs.Unsound.{BelowLocks, Compatible, Copied, OneSpan, Rooted, Whole, first_breach, row_of};
ghost use Rattle.book_check.specs.Faults.{Tells, first_row_breach};
ghost use Rattle.chunk_rules.specs.Lives.{chunk_at};
ghost use Rattle.row_search.specs.Starts.{IsCounted};

use crate::faults::CheckFault;
use crate::shape::shape_row;
use book_rows::Book;
use chunk_rules::below_locks::{ByGuard, below_locks_row};
use chunk_rules::copied::copied_row;
use chunk_rules::lives::{LiveChunk, live_chunks};
use chunk_rules::one_span::one_span_row;
use chunk_rules::whole::whole_row;
use lock_rules::conflicts::compatible_row;
use lock_rules::rooted::rooted_row;
use row_search::OutOfMemory;
use row_search::index::index;
use row_search::starts::{Starts, has_room, starts_of};
use std::alloc::Global;

fn check_copied(
    alloc: Global,
    book: &Book,
    starts: Starts,
    chunks: &[LiveChunk<'_>],
) -> Result<(), CheckFault>
    requires counted { IsCounted book.now starts }
    requires chunks { chunks.now ≡ map (chunk_at book.now.segments book.now.pendings) book.now.chunks }
    ensures { Tells (first_breach (Copied ∷ []) book.now) result }
{
    let found = copied_row(alloc, book, starts, chunks)?;
    match found {
        Some(row) => Err(CheckFault::Unsound { rule: 6, row }),
        None => Ok(()),
    }
}

fn check_whole(
    alloc: Global,
    book: &Book,
    starts: Starts,
    chunks: &[LiveChunk<'_>],
) -> Result<(), CheckFault>
    requires counted { IsCounted book.now starts }
    requires chunks { chunks.now ≡ map (chunk_at book.now.segments book.now.pendings) book.now.chunks }
    ensures { Tells (first_breach (Whole ∷ Copied ∷ []) book.now) result }
{
    let found = whole_row(alloc, book, starts, chunks)?;
    match found {
        Some(row) => Err(CheckFault::Unsound { rule: 5, row }),
        None => check_copied(alloc, book, starts, chunks),
    }
}

fn check_rooted(
    alloc: Global,
    book: &Book,
    starts: Starts,
    chunks: &[LiveChunk<'_>],
) -> Result<(), CheckFault>
    requires counted { IsCounted book.now starts }
    requires chunks { chunks.now ≡ map (chunk_at book.now.segments book.now.pendings) book.now.chunks }
    ensures { Tells (first_breach (Rooted ∷ Whole ∷ Copied ∷ []) book.now) result }
{
    let found = rooted_row(alloc, book, starts)?;
    match found {
        Some(row) => Err(CheckFault::Unsound { rule: 4, row }),
        None => check_whole(alloc, book, starts, chunks),
    }
}

fn below_locks_in(
    alloc: Global,
    book: &Book,
    starts: Starts,
    chunks: &[LiveChunk<'_>],
) -> Result<Option<u64>, OutOfMemory>
    requires counted { IsCounted book.now starts }
    requires chunks { chunks.now ≡ map (chunk_at book.now.segments book.now.pendings) book.now.chunks }
    ensures { IfOk result (λ row. row ≡ row_of BelowLocks book.now) }
{
    let locks = index(alloc, book.posses.as_slice(), &ByGuard)?;
    Ok(below_locks_row(starts.chunks, &locks, chunks))
}

fn check_below_locks(
    alloc: Global,
    book: &Book,
    starts: Starts,
    chunks: &[LiveChunk<'_>],
) -> Result<(), CheckFault>
    requires counted { IsCounted book.now starts }
    requires chunks { chunks.now ≡ map (chunk_at book.now.segments book.now.pendings) book.now.chunks }
    ensures { Tells (first_breach (BelowLocks ∷ Rooted ∷ Whole ∷ Copied ∷ []) book.now) result }
{
    let found = below_locks_in(alloc, book, starts, chunks)?;
    match found {
        Some(row) => Err(CheckFault::Unsound { rule: 3, row }),
        None => check_rooted(alloc, book, starts, chunks),
    }
}

fn one_span_in(
    alloc: Global,
    book: &Book,
    starts: Starts,
    chunks: &[LiveChunk<'_>],
) -> Result<Option<u64>, OutOfMemory>
    requires counted { IsCounted book.now starts }
    requires chunks { chunks.now ≡ map (chunk_at book.now.segments book.now.pendings) book.now.chunks }
    ensures { IfOk result (λ row. row ≡ row_of OneSpan book.now) }
{
    let row = one_span_row(alloc, starts.chunks, chunks)?;
    Ok(row)
}

fn check_one_span(
    alloc: Global,
    book: &Book,
    starts: Starts,
    chunks: &[LiveChunk<'_>],
) -> Result<(), CheckFault>
    requires counted { IsCounted book.now starts }
    requires chunks { chunks.now ≡ map (chunk_at book.now.segments book.now.pendings) book.now.chunks }
    ensures { Tells (first_breach (OneSpan ∷ BelowLocks ∷ Rooted ∷ Whole ∷ Copied ∷ []) book.now) result }
{
    let found = one_span_in(alloc, book, starts, chunks)?;
    match found {
        Some(row) => Err(CheckFault::Unsound { rule: 2, row }),
        None => check_below_locks(alloc, book, starts, chunks),
    }
}

fn check_chunks(alloc: Global, book: &Book, starts: Starts) -> Result<(), CheckFault>
    requires { IsCounted book.now starts }
    ensures { Tells (first_breach (OneSpan ∷ BelowLocks ∷ Rooted ∷ Whole ∷ Copied ∷ []) book.now) result }
{
    let chunks = live_chunks(
        alloc,
        book.segments.as_slice(),
        book.pendings.as_slice(),
        book.chunks.as_slice(),
    )?;
    check_one_span(alloc, book, starts, chunks.as_slice())
}

fn compatible_in(alloc: Global, book: &Book, starts: Starts) -> Result<Option<u64>, OutOfMemory>
    requires { IsCounted book.now starts }
    ensures { IfOk result (λ row. row ≡ row_of Compatible book.now) }
{
    let row = compatible_row(alloc, starts.posses, book.posses.as_slice())?;
    Ok(row)
}

fn check_compatible(alloc: Global, book: &Book, starts: Starts) -> Result<(), CheckFault>
    requires { IsCounted book.now starts }
    ensures { Tells (first_breach (Compatible ∷ OneSpan ∷ BelowLocks ∷ Rooted ∷ Whole ∷ Copied ∷ []) book.now) result }
{
    let found = compatible_in(alloc, book, starts)?;
    match found {
        Some(row) => Err(CheckFault::Unsound { rule: 1, row }),
        None => check_chunks(alloc, book, starts),
    }
}

/// Whether the book keeps the rules on rows. `Unsound` tells the first of them that it breaks, and the
/// least row that breaks it.
pub fn check_counted_rows(alloc: Global, book: &Book, starts: Starts) -> Result<(), CheckFault>
    requires { IsCounted book.now starts }
    ensures { Tells (first_row_breach book.now) result }
{
    let found = shape_row(alloc, book, starts)?;
    match found {
        Some(row) => Err(CheckFault::Unsound { rule: 0, row }),
        None => check_compatible(alloc, book, starts),
    }
}

/// Whether the book keeps the rules on rows. `Unsound` tells the first of them that it breaks, and the
/// least row that breaks it.
pub fn check_rows(alloc: Global, book: &Book) -> Result<(), CheckFault>
    ensures { Tells (first_row_breach book.now) result }
{
    if !has_room(book) {
        return Err(CheckFault::Unsound { rule: 0, row: 0 });
    }
    check_counted_rows(alloc, book, starts_of(book))
}
