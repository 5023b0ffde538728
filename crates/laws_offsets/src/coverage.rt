//! Each offset of a partition, from where it begins up to the stored one, was published once since its stream's last
//! reset.

ghost use Rattle.laws_offsets.specs.Coverage.{ReachedAreReadOnce, RunSinceReset, RunWithoutReset, TiledAreReadOnce};

/// In a book that tiles, each offset from where a partition begins up to its stored offset, which is
/// excluded, lies in exactly one of its ranges since the stream's last reset, or of all of them where
/// nothing resets the stream; and any other offset lies in none.
pub fn tiled_are_read_once()
    ensures { TiledAreReadOnce }
{}

/// So in each book that a list of commands that keep their form reaches from the empty one.
pub fn reached_are_read_once()
    ensures { ReachedAreReadOnce }
{}

/// Where no publication resets the stream, these are all ranges of the partition.
pub fn run_without_reset()
    ensures { RunWithoutReset }
{}

/// Where one does, these are the partition's ranges after the last that does.
pub fn run_since_reset()
    ensures { RunSinceReset }
{}
