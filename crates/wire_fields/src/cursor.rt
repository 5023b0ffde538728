//! Reading fields.
ghost use Rattle.std.specs.Prelude.{◌≡◌, length};
ghost use Rattle.std.specs.Int.{w16, w32, w64};
ghost use Rattle.wire_fields.specs.Fields.{Reads, ReadsBy, AreBytes, byte_at, number_at, signed_at, bytes_at};

use std::marker::Model;

/// Fewer bytes are left than the field has.
#[derive(Clone, Copy, Debug, PartialEq, Eq)]
pub struct Short;

/// A place in bytes, from which fields are read one after another.
///
/// A contract sees how many bytes were passed, and those that are left. A call that answers `Short`
/// leaves the cursor where it was.
#[derive(Drop)]
pub struct Cursor<'a> {
    rest: &'a [u8],
    place: usize,
}

impl<'a> Model for Cursor<'a> {
    ghost use Rattle.std.specs.Prelude.{◌+◌, ◌<◌, ◌^◌, length};
    ghost use Rattle.wire_fields.specs.Fields.{Left, AreBytes};

    ghost Value = { Left };

    ghost view = { λ c. record { place = c.place; rest = c.rest.now } };

    ghost invariant = { λ c. (c.place + length c.rest.now < 2 ^ 63) × AreBytes c.rest.now };
}

#[tactic(auto, unfolding(crate::specs::Fields::byte_at))]
impl<'a> Cursor<'a> {
    /// A cursor at the first of these bytes.
    pub fn new(bytes: &'a [u8]) -> Cursor<'a>
        ensures place { result.place ≡ 0 }
        ensures rest { result.rest ≡ bytes.entry.now }
    {
        Cursor {
            rest: bytes,
            place: 0,
        }
    }

    /// How many bytes were passed.
    pub fn place(&self) -> usize
        ensures { result ≡ self.now.place }
    {
        self.place
    }

    /// How many bytes are left.
    pub fn rest(&self) -> usize
        ensures value { result ≡ length self.now.rest }
        ensures bytes { AreBytes self.now.rest }
    {
        self.rest.len()
    }

    /// The next bytes, so many.
    pub fn bytes(&mut self, count: usize) -> Result<&'a [u8], Short>
        ensures { ReadsBy (λ s. s.now) (bytes_at count self.old.rest) result self.old self.new }
    {
        if self.rest.len() < count {
            return Err(Short);
        }
        let (front, rest) = self.rest.split_at(count);
        self.rest = rest;
        self.place += count;
        Ok(front)
    }

    /// A byte.
    pub fn u8(&mut self) -> Result<u8, Short>
        ensures { Reads (byte_at self.old.rest) result self.old self.new }
    {
        match self.rest {
            [first, rest @ ..] => {
                self.rest = rest;
                self.place += 1;
                Ok(*first)
            }
            [] => Err(Short),
        }
    }

    /// A number of two bytes.
    pub fn u16(&mut self) -> Result<u16, Short>
        ensures { Reads (number_at w16 self.old.rest) result self.old self.new }
    {
        let front = self.bytes(2)?;
        Ok(u16::from_be_bytes([front[0], front[1]]))
    }

    /// A number of four bytes.
    pub fn u32(&mut self) -> Result<u32, Short>
        ensures { Reads (number_at w32 self.old.rest) result self.old self.new }
    {
        let front = self.bytes(4)?;
        Ok(u32::from_be_bytes([front[0], front[1], front[2], front[3]]))
    }

    /// A number of eight bytes.
    pub fn u64(&mut self) -> Result<u64, Short>
        ensures { Reads (number_at w64 self.old.rest) result self.old self.new }
    {
        let front = self.bytes(8)?;
        Ok(u64::from_be_bytes([
            front[0], front[1], front[2], front[3], front[4], front[5], front[6], front[7],
        ]))
    }

    /// A signed number of eight bytes, in two's complement.
    #[tactic(auto, unfolding(crate::specs::Fields::signed_at))]
    pub fn i64(&mut self) -> Result<i64, Short>
        ensures { Reads (signed_at self.old.rest) result self.old self.new }
    {
        let front = self.bytes(8)?;
        Ok(i64::from_be_bytes([
            front[0], front[1], front[2], front[3], front[4], front[5], front[6], front[7],
        ]))
    }
}
