//! The reader.
ghost use Rattle.std.specs.Prelude.{◌≡◌, ◌<◌, ◌≤◌, ◌+◌, ◌++◌, ◌⊎◌, [], true, false, length, IsTrue, IfOk, OnOk, IsErrOf};
ghost use Rattle.host_desk.specs.Desk.{Rose};
ghost use Rattle.input_lines.specs.Lines.{line_limit};
ghost use Rattle.input_lines.specs.Reading.{Reading, Finds, IsCut, Loses, unread, work_left};

use crate::buffer::{Buffer, find_line};
use crate::found::{Found, ReadFault};
use host_desk::Source;
use std::alloc::Global;
use std::marker::Model;

/// Cuts the bytes of a source into lines, piece by piece.
#[derive(Drop)]
pub struct LineReader {
    buffer: Buffer,
}

impl Model for LineReader {
    ghost use Rattle.input_lines.specs.Reading.{Reading};

    ghost Value = { Reading };

    ghost use Rattle.input_lines.specs.Buffers.{reading_of, IsBuffer};

    ghost view = { λ r. reading_of r.buffer };

    ghost invariant = { λ r. IsBuffer r.buffer };
}

impl LineReader {
    /// A reader that has read nothing. It reads at most `limit` bytes of its source.
    pub fn new(alloc: Global, limit: u64) -> LineReader
        ensures { result ≡ record { buffered = []; taken = 0; limit = limit; is_ended = false } }
    {
        LineReader {
            buffer: Buffer {
                bytes: Vec::new(alloc),
                start: 0,
                taken: 0,
                limit,
                is_ended: false,
            },
        }
    }

    /// Puts the next line into `line`, without its byte 10. A line above 1,048,576 bytes is skipped, and its
    /// length told. After an error the reader is of no more use.
    pub fn next_line<S: Source>(
        &mut self,
        source: &mut S,
        line: &mut Vec<u8>,
    ) -> Result<Found, ReadFault>
        requires { IsTrue S.tells → self.old.is_ended ≡ true → S.remaining source.old ≡ [] }
        ensures counts { S.faults source.old ≤ S.faults source.new }
        ensures failed { IsErrOf result ReadFault.Failed → Rose (S.faults source.old) (S.faults source.new) }
        ensures too_long { IsErrOf result ReadFault.TooLong → self.new.taken ≡ self.new.limit }
        ensures limit { self.new.limit ≡ self.old.limit }
        ensures short { IfOk result (λ found. found ≡ Found.Line → length line.new.items ≤ line_limit) }
        ensures ended { IsTrue S.tells → OnOk result (self.new.is_ended ≡ true → S.remaining source.new ≡ []) }
        ensures end { IfOk result (λ found. found ≡ Found.End → (self.new.is_ended ≡ true) × (self.new.taken < self.new.limit)) }
        ensures within { self.new.taken ≤ self.new.limit }
        ensures taken { IsTrue S.tells → self.new.taken + length (S.remaining source.new) ≡ self.old.taken + length (S.remaining source.old) }
        ensures found { IsTrue S.tells → IfOk result (λ found. Finds found (unread self.old (S.remaining source.old)) line.new.items (unread self.new (S.remaining source.new))) }
        ensures cut { let before = unread self.old (S.remaining source.old) in
            let after = unread self.new (S.remaining source.new) in
            IsTrue S.tells → OnOk result (self.new.is_ended ≡ false → (self.old.is_ended ≡ false) × IsCut before after) }
        ensures nearer { IfOk result (λ found. (found ≡ Found.End → ⊥) → work_left self.new < work_left self.old) }
        ensures unended { IsErrOf result ReadFault.Failed ⊎ IsErrOf result ReadFault.TooLong → self.old.is_ended ≡ false }
        ensures lost { IsTrue S.tells → IsErrOf result ReadFault.Failed ⊎ IsErrOf result ReadFault.TooLong → Loses (unread self.old (S.remaining source.old)) (S.remaining source.new) }
    {
        find_line(source, &mut self.buffer, line)
    }
}
