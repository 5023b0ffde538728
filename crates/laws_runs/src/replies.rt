//! What runs say.

ghost use Rattle.laws_runs.specs.RunReplies.{RepliesAreLines, SaidIsLines};
ghost use Rattle.laws_runs.specs.ToldParts.{SoundPartsHaveTexts, TextsTellContents, TextsTellTimelines};

/// Each reply is one line, to whatever line and on whatever book.
pub fn replies_are_lines()
    ensures { RepliesAreLines }
{}

/// What a run says in answer to lines is as many lines.
pub fn said_is_lines()
    ensures { SaidIsLines }
{}

/// The text of a reply to `show timeline` or `show contents` tells its source and its parts: no other list of parts whose
/// ids and instants have texts has it. Those that a sound book replies with have.
pub fn texts_tell_parts()
    ensures timelines { TextsTellTimelines }
    ensures contents { TextsTellContents }
    ensures sound { SoundPartsHaveTexts }
{}
