//! Writing fields at the end of bytes. A call that answers `OutOfMemory` leaves them as they were.
ghost use Rattle.std.specs.Prelude.{◌≡◌, ◌<◌, ◌++◌, ◌∷◌, [], length, OnOk, OnErr};
ghost use Rattle.std.specs.Int.{w16, w32, w64, to_be_bytes};
ghost use Rattle.wire_fields.specs.Fields.{text_field, signed_field};

use crate::OutOfMemory;

/// Puts a byte.
pub fn put_u8(value: u8, out: &mut Vec<u8>) -> Result<(), OutOfMemory>
    ensures ok { OnOk result (out.new.items ≡ out.old.items ++ value ∷ []) }
    ensures err { OnErr result (out.new.items ≡ out.old.items) }
{
    out.push(value)?;
    Ok(())
}

/// Puts a number of two bytes.
pub fn put_u16(value: u16, out: &mut Vec<u8>) -> Result<(), OutOfMemory>
    ensures ok { OnOk result (out.new.items ≡ out.old.items ++ to_be_bytes w16 value) }
    ensures err { OnErr result (out.new.items ≡ out.old.items) }
{
    out.extend_from_slice(&value.to_be_bytes())
}

/// Puts a number of four bytes.
pub fn put_u32(value: u32, out: &mut Vec<u8>) -> Result<(), OutOfMemory>
    ensures ok { OnOk result (out.new.items ≡ out.old.items ++ to_be_bytes w32 value) }
    ensures err { OnErr result (out.new.items ≡ out.old.items) }
{
    out.extend_from_slice(&value.to_be_bytes())
}

/// Puts a number of eight bytes.
pub fn put_u64(value: u64, out: &mut Vec<u8>) -> Result<(), OutOfMemory>
    ensures ok { OnOk result (out.new.items ≡ out.old.items ++ to_be_bytes w64 value) }
    ensures err { OnErr result (out.new.items ≡ out.old.items) }
{
    out.extend_from_slice(&value.to_be_bytes())
}

/// Puts a signed number of eight bytes, in two's complement.
pub fn put_i64(value: i64, out: &mut Vec<u8>) -> Result<(), OutOfMemory>
    ensures ok { OnOk result (out.new.items ≡ out.old.items ++ signed_field value) }
    ensures err { OnErr result (out.new.items ≡ out.old.items) }
{
    out.extend_from_slice(&value.to_be_bytes())
}

/// Puts a text after its length.
pub fn put_text(text: &[u8], out: &mut Vec<u8>) -> Result<(), OutOfMemory>
    requires { length text.now < 256 }
    ensures ok { OnOk result (out.new.items ≡ out.old.items ++ text_field text.now) }
    ensures err { OnErr result (out.new.items ≡ out.old.items) }
{
    out.reserve(text.len() + 1)?;
    out.push(text.len() as u8)?;
    out.extend_from_slice(text)
}
