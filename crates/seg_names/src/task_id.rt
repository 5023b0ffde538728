//! Ids of tasks and of their groups.
ghost use Rattle.std.specs.Prelude.{◌≡◌, Some, IfOk, true, false, nat_eq, refl};
ghost use Rattle.std.specs.Ordering.{nat_cmp};
ghost use Rattle.std.specs.Hash as fed;
ghost use Rattle.std.specs.Cmp.Lexicographic.{pointwise, slice_cmp, nat_list_eq_equiv, nat_list_cmp_total, texts_ties, texts_po};
ghost use Rattle.std.specs.Cmp.{partial_equiv_from_equiv};
ghost use Rattle.std.specs.Cmp.Rules.{hashing};
ghost use Rattle.std.proofs.Common.{rules};
ghost use Rattle.seg_names.specs.Names.{is_task_id};

use crate::OutOfMemory;
use crate::name::NameFault;
use crate::utf8::text_of;
use std::alloc::Global;
use std::cmp::Ordering;
use std::hash::{Hash, Hasher};
use std::marker::Model;

/// A task's id, or a group's: 1 to 255 bytes of UTF-8.
///
/// A contract sees it as the list of its bytes.
#[derive(Debug, Drop)]
pub struct TaskId {
    text: String,
}

impl Model for TaskId {
    ghost use Rattle.std.specs.Prelude.{ℕ, List, ◌≡◌, true, string_bytes};
    ghost use Rattle.seg_names.specs.Names.{is_task_id};

    ghost Value = { List ℕ };

    ghost view = { λ t. string_bytes t.text };

    ghost invariant = { λ t. is_task_id (string_bytes t.text) ≡ true };
}

impl TaskId {
    /// The task id of these bytes. `BadName` where they are none.
    pub fn new(alloc: Global, text: &[u8]) -> Result<TaskId, NameFault>
        ensures ok { IfOk result (λ task. (task ≡ text.now) × (is_task_id text.now ≡ true)) }
        ensures bad { result ≡ Err NameFault.BadName → is_task_id text.now ≡ false }
    {
        if text.is_empty() || text.len() > 255 {
            return Err(NameFault::BadName);
        }
        match text_of(text) {
            Some(text) => Ok(TaskId {
                text: String::from_str(alloc, text)?,
            }),
            None => Err(NameFault::BadName),
        }
    }

    /// The bytes, which are a task id's.
    pub fn bytes(&self) -> &[u8]
        ensures text { result.now ≡ self.now }
        ensures id { is_task_id self.now ≡ true }
    {
        self.text.as_bytes()
    }

    /// The id as a text.
    pub fn as_str(&self) -> &str
        ensures text { result.now ≡ self.now }
        ensures id { is_task_id self.now ≡ true }
    {
        self.text.as_str()
    }

    /// A second value of the same id.
    pub fn twin(&self, alloc: Global) -> Result<TaskId, OutOfMemory>
        ensures { IfOk result (λ task. task ≡ self.now) }
    {
        Ok(TaskId {
            text: String::from_str(alloc, self.text.as_str())?,
        })
    }
}

impl PartialEq for TaskId {
    ghost eq = { pointwise nat_eq };

    ghost laws = { partial_equiv_from_equiv nat_list_eq_equiv };

    fn eq(&self, other: &TaskId) -> bool {
        self.bytes() == other.bytes()
    }
}

impl Eq for TaskId {
    ghost laws = { nat_list_eq_equiv };
}

impl PartialOrd for TaskId {
    ghost partial_cmp = { λ x y. Some (slice_cmp nat_cmp x y) };

    ghost laws = { texts_po };

    fn partial_cmp(&self, other: &TaskId) -> Option<Ordering> {
        Some(self.cmp(other))
    }
}

impl Ord for TaskId {
    ghost cmp = { slice_cmp nat_cmp };

    ghost total = { nat_list_cmp_total };

    ghost matches_partial_cmp = { λ x y. refl };

    ghost matches_eq = { texts_ties };

    fn cmp(&self, other: &TaskId) -> Ordering {
        self.bytes().cmp(other.bytes())
    }
}

impl Hash for TaskId {
    ghost hash_input = { fed.slice fed.u8 };

    ghost respects_eq = { Prim.search (hashing, rules) };

    fn hash<H: Hasher>(&self, state: &mut H) {
        self.bytes().hash(state);
    }
}
