//! What one byte says of a segment, and of a publication.
ghost use Rattle.std.specs.Prelude.{◌≡◌};
ghost use Rattle.snap_codec.specs.Fields.{mark_of, has_empties};
ghost use Rattle.snap_codec.specs.Grammar.{kind_of_mark};

use book_rows::{Items, PubKind};
use seg_names::SegId;

/// Whether a segment is used, and whether it is a tombstone.
#[derive(Clone, Copy)]
pub struct Flags {
    pub used: bool,
    pub tombstone: bool,
}

/// The kind of a publication. Those of the two last kinds have tombstones, which no other has.
#[derive(Clone, Copy)]
pub enum Mark {
    Append,
    Over,
    Replace,
    Drop,
    Reset,
    EmptyingOver,
    EmptyingReplace,
}

// The mark of a publication of this kind with these tombstones.
pub fn mark_of(kind: PubKind, empties: &Items<SegId>) -> Mark
    ensures { result ≡ mark_of kind empties.now }
{
    let plain = empties.as_slice().is_empty();
    match kind {
        PubKind::Append => Mark::Append,
        PubKind::Over if plain => Mark::Over,
        PubKind::Over => Mark::EmptyingOver,
        PubKind::Replace if plain => Mark::Replace,
        PubKind::Replace => Mark::EmptyingReplace,
        PubKind::Drop => Mark::Drop,
        PubKind::Reset => Mark::Reset,
    }
}

impl Mark {
    pub fn kind(self) -> PubKind
        ensures { result ≡ kind_of_mark self }
    {
        match self {
            Mark::Append => PubKind::Append,
            Mark::Over | Mark::EmptyingOver => PubKind::Over,
            Mark::Replace | Mark::EmptyingReplace => PubKind::Replace,
            Mark::Drop => PubKind::Drop,
            Mark::Reset => PubKind::Reset,
        }
    }

    pub fn has_empties(self) -> bool
        ensures { result ≡ has_empties self }
    {
        matches!(self, Mark::EmptyingOver | Mark::EmptyingReplace)
    }
}
