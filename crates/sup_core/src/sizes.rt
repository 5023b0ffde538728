//! How many sequences a group has, those that are published or abandoned too.
ghost use Rattle.std.specs.Prelude.{◌≡◌, ◌≤◌, false, length, nat_lt};
ghost use Rattle.book_rows.specs.Outcome.{row_limit};
ghost use Rattle.laws_sequences.specs.Links.{AreCounted};
ghost use Rattle.laws_sequences.proofs.Counts.{group_rows};

use seg_names::Name;
use tab_sequences::Sequences;

// Whether the group has more sequences than this. Their indexes are counted from 0.
fn has_more(sequences: &Sequences, source: &Name, group: u32, size: u32) -> bool
    requires { AreCounted sequences.now }
    ensures { result ≡ nat_lt size (length (group_rows source.now group sequences.now)) }
{
    sequences.has(source, group, u64::from(size))
}

// Their number, sought by halves between these two.
fn size_between(sequences: &Sequences, source: &Name, group: u32, low: u32, high: u32) -> u32
    requires counted { AreCounted sequences.now }
    requires low { low ≤ length (group_rows source.now group sequences.now) }
    requires high { length (group_rows source.now group sequences.now) ≤ high }
    ensures { result ≡ length (group_rows source.now group sequences.now) }
{
    if low == high {
        return low;
    }
    let middle = low + (high - low) / 2;
    if has_more(sequences, source, group, middle) {
        size_between(sequences, source, group, middle + 1, high)
    } else {
        size_between(sequences, source, group, low, middle)
    }
}

/// The number of the group's sequences.
pub fn size_of(sequences: &Sequences, source: &Name, group: u32) -> u32
    requires counted { AreCounted sequences.now }
    requires room { nat_lt row_limit (length sequences.now) ≡ false }
    ensures { result ≡ length (group_rows source.now group sequences.now) }
{
    let count = sequences.count();
    size_between(sequences, source, group, 0, count as u32)
}
