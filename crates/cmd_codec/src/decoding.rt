//! Reading a whole record.
ghost use Rattle.cmd_codec.specs.Records.{ReadsRecord};

use crate::fault::{CodecFault, ReadFault};
use crate::reading::read_command;
use book_rows::Command;
use std::alloc::Global;
use wire_fields::Cursor;

/// The commands of a record's body: one or more, to its end.
pub fn decode(alloc: Global, body: &[u8]) -> Result<Vec<Command>, CodecFault>
    ensures { ReadsRecord body.now result }
{
    if body.is_empty() {
        return Err(CodecFault::BadRecord { at: 0 });
    }
    let mut commands = Vec::new(alloc);
    let mut cursor = Cursor::new(body);
    while cursor.rest() > 0 {
        let at = cursor.place();
        match read_command(alloc, &mut cursor) {
            Ok(command) => commands.push(command)?,
            Err(ReadFault::OutOfMemory) => return Err(CodecFault::OutOfMemory),
            Err(ReadFault::Bad) => return Err(CodecFault::BadRecord { at }),
        }
    }
    Ok(commands)
}
