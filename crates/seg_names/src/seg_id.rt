//! Ids of segments.
ghost use Rattle.std.specs.Prelude.{◌≡◌, ◌++◌, IfOk, OnOk, true};
ghost use Rattle.iv_time.specs.Range.{is_instant};
ghost use Rattle.seg_names.specs.Ids.{has_instants};
ghost use Rattle.seg_names.specs.IdTexts.{GivesId, id_of, id_text, instant_field, is_seg_id, part_text};

use crate::OutOfMemory;
use crate::name::{Name, NameFault};
use crate::reading::parts;
use itoa::Buffer;
use iv_span::Span;
use std::alloc::Global;

/// Why no segment id was read of some bytes.
#[derive(Clone, Copy, Debug, PartialEq, Eq)]
pub enum SegFault {
    /// They aren't one.
    BadSegId,
    /// Memory ran out.
    OutOfMemory,
}

impl From<OutOfMemory> for SegFault {
    ghost use Rattle.std.specs.Prelude.{◌≡◌};
    ghost use Rattle.seg_names.specs.declared.seg_id.SegFault.TheVariants.{OutOfMemory};

    ghost from_gives = { λ _ fault. fault ≡ OutOfMemory };

    fn from(_error: OutOfMemory) -> SegFault {
        SegFault::OutOfMemory
    }
}

impl From<NameFault> for SegFault {
    ghost use Rattle.std.specs.Prelude.{◌≡◌};
    ghost use Rattle.seg_names.specs.IdTexts.{fault_of_name};

    ghost from_gives = { λ name fault. fault ≡ fault_of_name name };

    fn from(fault: NameFault) -> SegFault {
        match fault {
            NameFault::BadName => SegFault::BadSegId,
            NameFault::OutOfMemory => SegFault::OutOfMemory,
        }
    }
}

/// A segment's id. Its order is by its fields in turn, the span by its start and then its end.
///
/// The span's ends and the version are instants wherever an id has a text.
#[derive(Debug, PartialEq, Eq, PartialOrd, Ord, Hash, Drop)]
pub struct SegId {
    /// The data source.
    pub source: Name,
    /// The span that its rows lie in.
    pub span: Span,
    /// The version of its chunk.
    pub version: i64,
    /// The number of the part in its chunk, from 0 on.
    pub part: u32,
}

// Puts `_` and an instant in full.
#[tactic(auto, using(crate::proofs::Instants::instant_in))]
fn put_instant(ms: i64, out: &mut Vec<u8>) -> Result<(), OutOfMemory>
    requires { is_instant ms ≡ true }
    ensures { OnOk result (out.new.items ≡ out.old.items ++ instant_field ms) }
{
    out.push(b'_')?;
    out.extend_from_slice(&iv_time::write(ms))?;
    Ok(())
}

// Puts `_` and the part's number, and nothing for part 0.
fn put_part(part: u32, out: &mut Vec<u8>) -> Result<(), OutOfMemory>
    ensures { OnOk result (out.new.items ≡ out.old.items ++ part_text part) }
{
    if part == 0 {
        return Ok(());
    }
    let mut digits = Buffer::new();
    out.push(b'_')?;
    out.extend_from_slice(digits.format(part).as_bytes())?;
    Ok(())
}

impl SegId {
    /// The id that a text stands for, which is one of instants. `BadSegId` where it stands for
    /// none.
    #[tactic(auto, unfolding(crate::specs::IdTexts::id_of))]
    pub fn parse(alloc: Global, text: &[u8]) -> Result<SegId, SegFault>
        ensures read { GivesId result (id_of text.now) }
        ensures kept { IfOk result (λ id. is_seg_id id ≡ true) }
    {
        let Some((source, start, end, version, part)) = parts(text) else {
            return Err(SegFault::BadSegId);
        };
        let Ok(span) = Span::new(start, end) else {
            return Err(SegFault::BadSegId);
        };
        let source = Name::new(alloc, source)?;
        Ok(SegId {
            source,
            span,
            version,
            part,
        })
    }

    /// The text of the id: `SOURCE_START_END_VERSION` with the instants in full, and `_PART` where
    /// the part isn't 0.
    pub fn write(&self, alloc: Global) -> Result<Vec<u8>, OutOfMemory>
        requires { has_instants self.now ≡ true }
        ensures text { IfOk result (λ text. text.items ≡ id_text self.now) }
        ensures id { OnOk result (is_seg_id self.now ≡ true) }
    {
        let mut out = Vec::from_slice(alloc, self.source.bytes())?;
        put_instant(self.span.start(), &mut out)?;
        put_instant(self.span.end(), &mut out)?;
        put_instant(self.version, &mut out)?;
        put_part(self.part, &mut out)?;
        Ok(out)
    }

    /// A second value of the same id.
    pub fn twin(&self, alloc: Global) -> Result<SegId, OutOfMemory>
        ensures { IfOk result (λ id. id ≡ self.now) }
    {
        Ok(SegId {
            source: self.source.twin(alloc)?,
            span: self.span,
            version: self.version,
            part: self.part,
        })
    }
}
