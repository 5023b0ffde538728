//! The keys of an index, in a tree, and which groups of keys it has had.
//!
//! The group of a key is its digest modulo eight. A look-up that seeks rows by several digests, of
//! which most have no keys, has them in different groups: so it knows of most of them without the
//! tree. Keys at place 0 are in no group, since those that are found by their digest alone would
//! mark them all.
ghost use Rattle.std.specs.Prelude.{◌≡◌, [], ℕ, ℤ, OnOk, false, None, cond, pos, ◌⊎◌};
ghost use Rattle.std.specs.BTreeMap.{is_at};
ghost use Rattle.std.specs.Map.{lookup};
ghost use Rattle.row_index.specs.Groups.{IsMarked, group_of};
ghost use Rattle.row_index.specs.Index.{IsKey, IsMore, Lies, key_cmp};

use crate::OutOfMemory;
use std::alloc::Global;
use std::collections::BTreeMap;
use std::marker::Model;

/// The tree of keys: each key of a row, with the row's number. A key is a digest, and a place among
/// the keys of that digest.
pub type Tree = BTreeMap<((u64, i64), u64), ()>;

/// The keys of an index. Contracts see their list.
#[derive(Drop)]
pub struct Keys {
    tree: Tree,
    marks: [bool; 8],
}

impl Model for Keys {
    ghost use Rattle.row_index.specs.Groups.{AreMarked, KeySet};

    ghost Value = { KeySet };

    ghost view = { λ a. record { entries = a.tree.entries } };

    ghost invariant = { λ a. AreMarked a.marks a.tree.entries };
}

fn group_of(digest: u64) -> usize
    ensures { result ≡ group_of digest }
{
    (digest % 8) as usize
}

fn mark(marks: &mut [bool; 8], key: (u64, i64))
    ensures kept { (group : ℕ) → IsMarked marks.old group → IsMarked marks.new group }
    ensures own { (key.1 ≡ pos 0) ⊎ IsMarked marks.new (group_of key.0) }
{
    if key.1 != 0 {
        marks[group_of(key.0)] = true;
    }
}

impl Keys {
    /// No keys.
    pub fn new(alloc: Global) -> Keys
        ensures { result.entries ≡ [] }
    {
        Keys {
            tree: BTreeMap::new(alloc),
            marks: [false; 8],
        }
    }

    /// How many keys there are.
    pub fn count(&self) -> usize {
        self.tree.len()
    }

    /// The tree of keys.
    pub fn tree(&self) -> &Tree
        ensures { result.now.entries ≡ self.now.entries }
    {
        &self.tree
    }

    /// Whether there may be a key in the range.
    pub fn may_have(&self, range: ((u64, i64), i64)) -> bool
        ensures { result ≡ false → (k : ℕ × ℤ) (s : ℕ) → Lies range k → IsKey self.now.entries (k, s) → ⊥ }
    {
        let (first, end) = range;
        (first.1 <= 0 && 0 < end) || self.marks[group_of(first.0)]
    }

    /// Adds a key. The error is want of memory.
    pub fn add(&mut self, key: ((u64, i64), u64)) -> Result<(), OutOfMemory>
        ensures more { IsMore self.old.entries self.new.entries }
        ensures own { OnOk result (IsKey self.new.entries key) }
    {
        mark(&mut self.marks, key.0);
        self.tree.insert(key, ())?;
        Ok(())
    }

    /// Takes a key out. It takes no memory.
    pub fn remove(&mut self, key: ((u64, i64), u64))
        ensures { (p : (ℕ × ℤ) × ℕ) → lookup (is_at (key_cmp p)) self.new.entries ≡ cond (is_at (key_cmp key) p) None (lookup (is_at (key_cmp p)) self.old.entries) }
    {
        self.tree.remove(&key);
    }
}
