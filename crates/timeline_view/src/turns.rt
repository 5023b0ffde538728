//! The starts and ends of marks.

ghost use Rattle.std.specs.Prelude.{◌≡◌, ◌≤◌, ◌++◌, ◌∷◌, [], IfOk, OnOk, false, length, true};
ghost use Rattle.std.specs.List.Sorted.{IsPartitionPoint};
ghost use Rattle.row_index.specs.Index.{IsLess, IsMore, Shows};
ghost use Rattle.timeline_view.specs.Marks.{mark_keys};
ghost use Rattle.timeline_view.specs.Turns.{AreTurns, DoTurnsRise, end_turn, is_turn_before, start_turn};

use crate::marks::{Mark, mark_at};
use iv_span::OutOfMemory;
use row_index::{Keys, add_keys, remove_keys};
use std::alloc::Global;

/// The start or the end of the mark at a place.
#[derive(Clone, Copy, Debug, PartialEq, Eq, PartialOrd, Ord)]
pub struct Turn {
    pub at: i64,
    pub enters: bool,
    pub place: u64,
}

fn push_turns(turns: &mut Vec<Turn>, place: u64, mark: &Mark) -> Result<(), OutOfMemory>
    ensures { OnOk result (turns.new.items ≡ turns.old.items ++ start_turn place mark.now ∷ end_turn place mark.now ∷ []) }
{
    turns.push(Turn {
        at: mark.start,
        enters: true,
        place,
    })?;
    turns.push(Turn {
        at: mark.end,
        enters: false,
        place,
    })?;
    Ok(())
}

/// The starts and ends of the marks, by their instants.
pub fn turns_of(alloc: Global, marks: &[Mark]) -> Result<Vec<Turn>, OutOfMemory>
    ensures all { IfOk result (λ v. AreTurns marks.now v.items) }
    ensures rise { IfOk result (λ v. DoTurnsRise v.items) }
{
    let mut turns = Vec::new(alloc);
    for place in 0..marks.len() {
        push_turns(&mut turns, place as u64, mark_at(marks, place as u64))?;
    }
    turns.sort()?;
    Ok(turns)
}

fn is_turn_before(turn: &Turn, at: i64) -> bool
    ensures { result ≡ is_turn_before at turn.now }
{
    turn.at < at
}

/// How many turns come before the instant.
pub fn turns_before(turns: &[Turn], at: i64) -> usize
    requires { DoTurnsRise turns.now }
    ensures bound { result ≤ length turns.now }
    ensures split { IsPartitionPoint (λ x. is_turn_before at x ≡ true) (λ x. is_turn_before at x ≡ false) turns.now result }
{
    turns.partition_point(|turn| is_turn_before(turn, at))
}

/// A mark that starts gets its key, and one that ends loses it.
pub fn turn_keys(keys: &mut Keys, turn: Turn, mark: &Mark) -> Result<(), OutOfMemory>
    ensures more { turn.enters ≡ true → IsMore keys.old.entries keys.new.entries }
    ensures own { turn.enters ≡ true → OnOk result (Shows (mark_keys mark.now) turn.place keys.new.entries) }
    ensures less { turn.enters ≡ false → IsLess turn.place keys.old.entries keys.new.entries }
{
    if turn.enters {
        add_keys(keys, turn.place, mark)
    } else {
        remove_keys(keys, turn.place, mark);
        Ok(())
    }
}
