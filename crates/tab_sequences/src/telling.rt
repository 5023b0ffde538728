//! What replicas tell is kept, and sequences close.
ghost use Rattle.std.specs.Prelude.{◌≡◌, [], ◌∷◌, refl};
ghost use Rattle.row_index.specs.Index.{digest_range};
ghost use Rattle.book_rows.specs.Sequences.{is_named};
ghost use Rattle.tab_sequences.specs.ChangeLaws.{telling_brings};
ghost use Rattle.tab_sequences.specs.Changes.{after_telling, closed_with, ends_with, reports_with, state_with};
ghost use Rattle.tab_sequences.specs.Covers.{named_covers};
ghost use Rattle.tab_sequences.specs.Keys.{name_digest, name_key};

use crate::entries::{Sequence, name_key};
use crate::queries::{has_name, name_range};
use crate::states::is_active;
use book_rows::{Items, Offset, Report, SeqState, SequenceRow};
use row_index::{Keyed, Query};
use row_table::Update;
use seg_names::TaskId;

/// How a sequence closes.
#[derive(Drop)]
pub struct Closing {
    /// The instant.
    pub at: i64,
    /// For each partition of the group the offset before which the sequence ends.
    pub ends: Items<Offset>,
}

/// The sequence of a name, where it reads or is paused, closes, or else pauses; and it gets these
/// reports, where some are given.
#[derive(Drop)]
pub struct Telling<'a> {
    pub name: &'a TaskId,
    pub reports: Option<Items<Report>>,
    pub closing: Option<Closing>,
}

impl Query<Sequence> for Telling<'_> {
    ghost passes = { λ q u. is_named q.name.now u };

    ghost ranges = { λ q. digest_range (name_digest q.name.now) ∷ [] };

    ghost covers = { λ q u on. named_covers q.name.now u on };

    fn passes(&self, row: &Sequence) -> bool {
        has_name(row, self.name)
    }

    fn range_count(&self) -> usize {
        1
    }

    fn range(&self, _at: usize) -> ((u64, i64), i64) {
        name_range(self.name)
    }
}

// It brings no new key: that of its name the row has.
impl Keyed for Telling<'_> {
    ghost keys = { λ q. name_key q.name.now ∷ [] };

    fn key_count(&self) -> usize {
        1
    }

    fn key(&self, at: usize) -> (u64, i64) {
        match at {
            0 => name_key(self.name),
            _ => unreachable!(),
        }
    }
}

impl Update<Sequence> for Telling<'_> {
    ghost after = { λ q u. after_telling q.reports q.closing u };

    ghost brings = { λ q u. telling_brings q.reports q.closing (name_key q.name.now ∷ []) u };

    ghost stays = { λ q r u. refl };

    fn update(self, row: &mut Sequence) {
        let Telling {
            name: _name,
            reports,
            closing,
        } = self;
        if is_active(row.row.state) {
            tell(&mut row.row, reports, closing);
        }
    }
}

fn close(row: &mut SequenceRow, closing: Option<Closing>)
    ensures { row.new ≡ record row.old { state = state_with closing; closed = closed_with closing row.old.closed; ends = ends_with closing row.old.ends } }
{
    match closing {
        Some(Closing { at, ends }) => {
            row.state = SeqState::Closed;
            row.closed = at;
            row.ends = ends;
        }
        None => row.state = SeqState::Paused,
    }
}

fn tell(row: &mut SequenceRow, reports: Option<Items<Report>>, closing: Option<Closing>)
    ensures { row.new ≡ record row.old { state = state_with closing; closed = closed_with closing row.old.closed; ends = ends_with closing row.old.ends; reports = reports_with reports row.old.reports } }
{
    close(row, closing);
    if let Some(reports) = reports {
        row.reports = reports;
    }
}
