//! What the rules mean: the counts of which they speak, what is shown, and what a replacement carries.

ghost use Rattle.laws_chunks.specs.Meaning.{CarriedAreAdded, CountIsOne, CountMeansPut, ShownIsContents, SoundShowsContents};
ghost use Rattle.laws_chunks.specs.RowTexts.{TextsAreSame};

/// A root is counted where the publications put it and none takes it away.
pub fn count_means_put()
    ensures { CountMeansPut }
{}

/// Where no id is added twice, a root that is there is counted once.
pub fn count_is_one()
    ensures { CountIsOne }
{}

/// Where no id is added twice and the rule on what is shown holds, the roots that are shown are those of the contents,
/// each by one visible row.
pub fn shown_is_contents()
    ensures { ShownIsContents }
{}

/// A sound book shows its contents at each instant, each root once.
pub fn sound_shows_contents()
    ensures { SoundShowsContents }
{}

/// Where the rule on upgrade rows holds, at an instant of a valid replacing lock that it doesn't cover, the roots of its
/// upgrade rows that have the instant are those that publications put there since it was made and none took away.
pub fn carried_are_added()
    ensures { CarriedAreAdded }
{}

/// The rules said of live ids are those said of live chunk rows.
pub fn texts_are_same()
    ensures { TextsAreSame }
{}
