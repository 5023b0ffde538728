// A record as it is written behind a closed gate.
ghost use Rattle.std.specs.Prelude.{◌≡◌, ◌<◌, ◌≤◌, ◌+◌, ◌^◌, ◌++◌, length, IfOk};
ghost use Rattle.gate_log.specs.Format.{frame_of};

use crate::OutOfMemory;
use std::alloc::Global;
use std::marker::Model;
use wire_fields::put_u32;

/// A record that is ready to be added: its length, its body and the next gate, which is closed. Contracts see its body.
#[derive(Drop)]
pub struct Frame {
    bytes: Vec<u8>,
}

impl Model for Frame {
    ghost use Rattle.std.specs.Prelude.{List, ℕ};

    ghost Value = { List ℕ };

    ghost use Rattle.gate_log.specs.Frame.{body_of, IsFrame};

    ghost view = { λ f. body_of f.bytes.items };

    ghost invariant = { λ f. IsFrame f.bytes.items };
}

impl Frame {
    /// The bytes as they stand in the file behind the record's gate.
    pub fn bytes(&self) -> &[u8]
        ensures bytes { result.now ≡ frame_of self.now }
        ensures some { 0 < length self.now }
        ensures fits { length self.now < 2 ^ 32 }
    {
        &self.bytes
    }

    /// The number of those bytes.
    pub fn size(&self) -> u64
        ensures { result ≡ 5 + length self.now }
    {
        self.bytes.len() as u64
    }
}

/// Makes the record of a body. Its memory is taken here, so that adding it takes none.
pub fn make_frame(alloc: Global, body: &[u8]) -> Result<Frame, OutOfMemory>
    requires some { 0 < length body.now }
    requires fits { length body.now < 2 ^ 32 }
    ensures { IfOk result (λ frame. frame ≡ body.now) }
{
    let mut bytes = Vec::new(alloc);
    put_u32(body.len() as u32, &mut bytes)?;
    bytes.extend_from_slice(body)?;
    bytes.push(0)?;
    Ok(Frame { bytes })
}
