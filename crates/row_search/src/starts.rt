//! How many rows of the book stand before each table.
ghost use Rattle.std.specs.Prelude.{◌≡◌, nat_lt, true};
ghost use Rattle.book_rows.specs.Outcome.{row_limit};
ghost use Rattle.laws_unsound.specs.ShapeRows.{has_room};
ghost use Rattle.row_search.specs.Starts.{IsCounted};

use book_rows::{Book, NUMBER_LIMIT, ROW_LIMIT};

/// How many rows of the book stand before each table but that of the tasks, which is the first.
#[derive(Clone, Copy, Debug, PartialEq, Eq)]
pub struct Starts {
    pub posses: u64,
    pub chunks: u64,
    pub segments: u64,
    pub pendings: u64,
    pub upgrades: u64,
    pub publications: u64,
    pub offsets: u64,
    pub supervisors: u64,
    pub sequences: u64,
}

fn are_many(count: usize) -> bool
    ensures { result ≡ nat_lt row_limit count }
{
    count > ROW_LIMIT
}

/// Whether no table has too many rows, and the next lock's number isn't too great.
pub fn has_room(book: &Book) -> bool
    ensures { result ≡ has_room book.now }
{
    !(are_many(book.tasks.len())
        || are_many(book.posses.len())
        || book.next_lock > NUMBER_LIMIT
        || are_many(book.chunks.len())
        || are_many(book.segments.len())
        || are_many(book.pendings.len())
        || are_many(book.upgrades.len())
        || are_many(book.publications.len())
        || are_many(book.offsets.len())
        || are_many(book.supervisors.len())
        || are_many(book.sequences.len()))
}

/// How many rows stand before each table.
pub fn starts_of(book: &Book) -> Starts
    requires { has_room book.now ≡ true }
    ensures { IsCounted book.now result }
{
    let posses = book.tasks.len() as u64;
    let chunks = posses + book.posses.len() as u64;
    let segments = chunks + book.chunks.len() as u64;
    let pendings = segments + book.segments.len() as u64;
    let upgrades = pendings + book.pendings.len() as u64;
    let publications = upgrades + book.upgrades.len() as u64;
    let offsets = publications + book.publications.len() as u64;
    let supervisors = offsets + book.offsets.len() as u64;
    let sequences = supervisors + book.supervisors.len() as u64;
    Starts {
        posses,
        chunks,
        segments,
        pendings,
        upgrades,
        publications,
        offsets,
        supervisors,
        sequences,
    }
}
