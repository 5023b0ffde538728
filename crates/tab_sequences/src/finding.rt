//! A sequence is found by its source, group and index, without its name.
ghost use Rattle.std.specs.Prelude.{◌≡◌, [], ◌∷◌, decimal, fold};
ghost use Rattle.book_rows.specs.Names.{sequence_name};
ghost use Rattle.row_index.specs.Digests.{mix};
ghost use Rattle.row_index.specs.Index.{digest_range};
ghost use Rattle.tab_sequences.specs.Covers.{at_covers};
ghost use Rattle.tab_sequences.specs.Finding.{is_at_index};
ghost use Rattle.tab_sequences.specs.Keys.{name_digest};

use crate::entries::Sequence;
use crate::queries::is_of_group;
use itoa::Buffer;
use row_index::{Query, digest_range, mix, mix_bytes};
use seg_names::Name;

fn mix_number(digest: u64, number: u64) -> u64
    ensures { result ≡ fold mix digest (decimal number) }
{
    let mut buffer = Buffer::new();
    mix_bytes(digest, buffer.format(number).as_bytes())
}

// The digest of a name, made of its parts.
fn sequence_digest(source: &Name, group: u32, index: u64) -> u64
    ensures { result ≡ name_digest (sequence_name source.now group index) }
{
    let of_source = mix_bytes(mix_bytes(1, b"sup:"), source.bytes());
    let of_group = mix_number(mix(of_source, 58), u64::from(group));
    mix_number(mix(of_group, 58), index)
}

/// The sequence of a group's index.
#[derive(Drop)]
pub struct At<'a> {
    pub source: &'a Name,
    pub group: u32,
    pub index: u64,
}

impl Query<Sequence> for At<'_> {
    ghost passes = { λ q u. is_at_index q.source.now q.group q.index u };

    ghost ranges = { λ q. digest_range (name_digest (sequence_name q.source.now q.group q.index)) ∷ [] };

    ghost covers = { λ q u on. at_covers q.source.now q.group q.index u on };

    fn passes(&self, row: &Sequence) -> bool {
        is_of_group(&row.row, self.source, self.group) && u64::from(row.row.index) == self.index
    }

    fn range_count(&self) -> usize {
        1
    }

    fn range(&self, _at: usize) -> ((u64, i64), i64) {
        digest_range(sequence_digest(self.source, self.group, self.index))
    }
}
