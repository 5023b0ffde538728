//! Which chunk is visible, where it isn't said by its version alone.

ghost use Rattle.laws_parts.specs.OneSpan.{SoundSharesOneSpan};

/// Used segments of a sound book, of one source and version, that share an instant have one span.
pub fn sound_shares_one_span()
    ensures { SoundSharesOneSpan }
{}
