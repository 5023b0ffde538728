//! Tests of states.
ghost use Rattle.std.specs.Prelude.{◌≡◌};
ghost use Rattle.book_rows.specs.Kinds.{is_unpublished};
ghost use Rattle.tab_sequences.specs.Changes.{is_active_state};

use book_rows::SeqState;

/// Whether a sequence of this state is neither published nor abandoned.
pub fn is_unpublished(state: SeqState) -> bool
    ensures { result ≡ is_unpublished state }
{
    match state {
        SeqState::Reading | SeqState::Paused | SeqState::Closed => true,
        SeqState::Published | SeqState::Abandoned => false,
    }
}

/// Whether a sequence of this state reads, or waits for reports.
pub fn is_active(state: SeqState) -> bool
    ensures { result ≡ is_active_state state }
{
    match state {
        SeqState::Reading | SeqState::Paused => true,
        SeqState::Closed | SeqState::Published | SeqState::Abandoned => false,
    }
}
