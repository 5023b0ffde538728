//! Laws of the texts of instants.
ghost use Rattle.std.specs.Prelude.{◌≡◌, ℤ, Some};
ghost use Rattle.iv_time.specs.Texts.{instant_of};
ghost use Rattle.iv_time.specs.Civil.{instant_text};
ghost use Rattle.iv_time.specs.Range.{IsInstant};

/// What is written of an instant is a text of it.
pub fn reads_back_itself()
    ensures { (ms : ℤ) → IsInstant ms → instant_of (instant_text ms) ≡ Some ms }
{}
