//! What holds of the keys of a book after a command that keeps its form, where the book before is sound.

ghost use Rattle.laws_keys.specs.KeyLaws.{CommitsStayBounded, IdsStayDistinct, IdsStayInChunks, KeysStay, RequestsStayDistinct, RootsStayPublished, SequencesStayDistinct, SupervisorsStayDistinct, UpgradesStayDistinct};

/// Commits stay below the number of publications, and no lock and no published span counts more.
pub fn commits_stay_bounded()
    ensures { CommitsStayBounded }
{}

/// No two upgrade rows are of one lock and one root.
pub fn upgrades_stay_distinct()
    ensures { UpgradesStayDistinct }
{}

/// No two root pendings are of one source, sequence and previous id.
pub fn requests_stay_distinct()
    ensures { RequestsStayDistinct }
{}

/// Each id of a segment, a pending or a publication has its chunk row, with a next part above its own.
pub fn ids_stay_in_chunks()
    ensures { IdsStayInChunks }
{}

/// Each tombstone is one of its publication's, and the root of any other segment is one that a
/// publication adds, not after the segment's own.
pub fn roots_stay_published()
    ensures { RootsStayPublished }
{}

/// No two segments or pendings have one id.
pub fn ids_stay_distinct()
    ensures { IdsStayDistinct }
{}

/// No two supervisors are of one source.
pub fn supervisors_stay_distinct()
    ensures { SupervisorsStayDistinct }
{}

/// No two sequences are of one source, group and index.
pub fn sequences_stay_distinct()
    ensures { SequencesStayDistinct }
{}

/// All of this holds after each command that keeps its form, of a sound book.
pub fn keys_stay()
    ensures { KeysStay }
{}
