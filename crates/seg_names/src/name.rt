//! Names of data sources, streams and sequences.
ghost use Rattle.std.specs.Prelude.{◌≡◌, Some, IfOk, IsErrOf, true, false, nat_eq, refl};
ghost use Rattle.std.specs.Ordering.{nat_cmp};
ghost use Rattle.std.specs.Hash as fed;
ghost use Rattle.std.specs.Cmp.Lexicographic.{pointwise, slice_cmp, nat_list_eq_equiv, nat_list_cmp_total, texts_ties, texts_po};
ghost use Rattle.std.specs.Cmp.{partial_equiv_from_equiv};
ghost use Rattle.std.specs.Cmp.Rules.{hashing};
ghost use Rattle.std.proofs.Common.{rules};
ghost use Rattle.std.specs.List.{list_all};
ghost use Rattle.seg_names.specs.Names.{is_name, is_name_byte};

use crate::OutOfMemory;
use crate::utf8::text_of;
use std::alloc::Global;
use std::cmp::Ordering;
use std::hash::{Hash, Hasher};
use std::marker::Model;

/// Why no name or task id was made of some bytes.
#[derive(Clone, Copy, Debug, PartialEq, Eq)]
pub enum NameFault {
    /// They aren't one.
    BadName,
    /// Memory ran out.
    OutOfMemory,
}

impl From<OutOfMemory> for NameFault {
    ghost use Rattle.std.specs.Prelude.{◌≡◌};
    ghost use Rattle.seg_names.specs.declared.name.NameFault.TheVariants.{OutOfMemory};

    ghost from_gives = { λ _ fault. fault ≡ OutOfMemory };

    fn from(_error: OutOfMemory) -> NameFault {
        NameFault::OutOfMemory
    }
}

/// A name: 1 to 200 bytes, each an ASCII letter or digit, `_`, `-` or `.`.
///
/// A contract sees it as the list of its bytes.
#[derive(Debug, Drop)]
pub struct Name {
    text: String,
}

impl Model for Name {
    ghost use Rattle.std.specs.Prelude.{ℕ, List, ◌≡◌, true, string_bytes};
    ghost use Rattle.seg_names.specs.Names.{is_name};

    ghost Value = { List ℕ };

    ghost view = { λ n. string_bytes n.text };

    ghost invariant = { λ n. is_name (string_bytes n.text) ≡ true };
}

fn may_stand_in_name(byte: u8) -> bool
    ensures { result ≡ is_name_byte byte }
{
    matches!(byte, b'a'..=b'z' | b'A'..=b'Z' | b'0'..=b'9' | b'_' | b'-' | b'.')
}

fn has_name_bytes(text: &[u8]) -> bool
    ensures { result ≡ list_all is_name_byte text.now }
{
    text.iter().all(|byte| may_stand_in_name(*byte))
}

/// Whether the bytes are a name.
pub fn is_name_text(text: &[u8]) -> bool
    ensures { result ≡ is_name text.now }
{
    1 <= text.len() && text.len() <= 200 && has_name_bytes(text)
}

impl Name {
    /// The name of these bytes. `BadName` where they are none.
    pub fn new(alloc: Global, text: &[u8]) -> Result<Name, NameFault>
        ensures ok { IfOk result (λ name. (name ≡ text.now) × (is_name text.now ≡ true)) }
        ensures bad { result ≡ Err NameFault.BadName → is_name text.now ≡ false }
    {
        if !is_name_text(text) {
            return Err(NameFault::BadName);
        }
        match text_of(text) {
            Some(text) => Ok(Name {
                text: String::from_str(alloc, text)?,
            }),
            None => Err(NameFault::BadName),
        }
    }

    /// The bytes, which are a name's.
    pub fn bytes(&self) -> &[u8]
        ensures text { result.now ≡ self.now }
        ensures name { is_name self.now ≡ true }
    {
        self.text.as_bytes()
    }

    /// The name as a text.
    pub fn as_str(&self) -> &str
        ensures text { result.now ≡ self.now }
        ensures name { is_name self.now ≡ true }
    {
        self.text.as_str()
    }

    /// A second value of the same name.
    pub fn twin(&self, alloc: Global) -> Result<Name, OutOfMemory>
        ensures { IfOk result (λ name. name ≡ self.now) }
    {
        Ok(Name {
            text: String::from_str(alloc, self.text.as_str())?,
        })
    }
}

impl PartialEq for Name {
    ghost eq = { pointwise nat_eq };

    ghost laws = { partial_equiv_from_equiv nat_list_eq_equiv };

    fn eq(&self, other: &Name) -> bool {
        self.bytes() == other.bytes()
    }
}

impl Eq for Name {
    ghost laws = { nat_list_eq_equiv };
}

impl PartialOrd for Name {
    ghost partial_cmp = { λ x y. Some (slice_cmp nat_cmp x y) };

    ghost laws = { texts_po };

    fn partial_cmp(&self, other: &Name) -> Option<Ordering> {
        Some(self.cmp(other))
    }
}

impl Ord for Name {
    ghost cmp = { slice_cmp nat_cmp };

    ghost total = { nat_list_cmp_total };

    ghost matches_partial_cmp = { λ x y. refl };

    ghost matches_eq = { texts_ties };

    fn cmp(&self, other: &Name) -> Ordering {
        self.bytes().cmp(other.bytes())
    }
}

impl Hash for Name {
    ghost hash_input = { fed.slice fed.u8 };

    ghost respects_eq = { Prim.search (hashing, rules) };

    fn hash<H: Hasher>(&self, state: &mut H) {
        self.bytes().hash(state);
    }
}
