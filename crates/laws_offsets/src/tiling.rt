//! The published ranges tile each partition: each starts where the one before it ends, the first at
//! the offset of the stream's last reset, and the last ends at the stored offset.

ghost use Rattle.laws_offsets.specs.Tiling.{EmptyBookTiles, ReachedBooksTile, TilesStay};

/// The empty book tiles.
pub fn empty_book_tiles()
    ensures { EmptyBookTiles }
{}

/// Every command that keeps its form leads from a book that tiles to one.
pub fn tiles_stay()
    ensures { TilesStay }
{}

/// So each book tiles that a list of such commands reaches from the empty one.
pub fn reached_books_tile()
    ensures { ReachedBooksTile }
{}
