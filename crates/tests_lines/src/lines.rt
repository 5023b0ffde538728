// Lines as they come out of a source, on bytes worked out by hand.
ghost use Rattle.std.specs.Prelude.{◌≡◌, [], IsTrue, OnOk, true};

use host_desk::{MemSource, Source};
use input_lines::{Found, LineReader, ReadFault};
use std::alloc::Global;
use std::test::Fail;

// Notes what was found: a line with a `;` at its end, a long line as `!`, and the end as `.`.
fn note(found: Found, line: &[u8], notes: &mut Vec<u8>) -> Result<(), Fail> {
    match found {
        Found::Line => {
            notes.extend_from_slice(line)?;
            notes.push(b';')?;
        }
        Found::LongLine { .. } => notes.push(b'!')?,
        Found::End => notes.push(b'.')?,
    }
    Ok(())
}

// Notes the next three lines.
fn note_three<S: Source>(
    reader: &mut LineReader,
    source: &mut S,
    line: &mut Vec<u8>,
    notes: &mut Vec<u8>,
) -> Result<(), Fail>
    requires { IsTrue S.tells → reader.old.is_ended ≡ true → S.remaining source.old ≡ [] }
    ensures { IsTrue S.tells → OnOk result (reader.new.is_ended ≡ true → S.remaining source.new ≡ []) }
{
    note(reader.next_line(source, line)?, line, notes)?;
    note(reader.next_line(source, line)?, line, notes)?;
    note(reader.next_line(source, line)?, line, notes)?;
    Ok(())
}

// What is found by six reads.
fn found(alloc: Global, mut source: MemSource) -> Result<Vec<u8>, Fail> {
    let mut reader = LineReader::new(alloc, 1 << 40);
    let (mut line, mut notes) = (Vec::new(alloc), Vec::new(alloc));
    note_three(&mut reader, &mut source, &mut line, &mut notes)?;
    note_three(&mut reader, &mut source, &mut line, &mut notes)?;
    Ok(notes)
}

#[test]
fn lines_end_with_byte_10_or_the_input(rt: HostRuntime) -> Result<(), Fail> {
    for piece in [1, 3, 100] {
        let bytes = b"ab\n\ncde\r\nf".to_vec(rt.alloc())?;
        let notes = found(rt.alloc(), MemSource::new(rt.alloc(), bytes, piece))?;
        assert!(rt;
            notes.as_slice() == b"ab;;cde\r;f;..".as_slice(),
            "by {piece}"
        );
    }
    Ok(())
}

// A line of 1,048,577 bytes, and one of a byte less.
fn long_lines(alloc: Global) -> Result<Vec<u8>, Fail> {
    let mut bytes = vec![in alloc; b'x'; 1_048_577]?;
    bytes.extend_from_slice(b"\n")?;
    bytes.resize(1_048_578 + 1_048_576, b'y')?;
    Ok(bytes)
}

#[test]
fn a_line_above_the_limit_is_skipped(rt: HostRuntime) -> Result<(), Fail> {
    let source = MemSource::new(rt.alloc(), long_lines(rt.alloc())?, 70_000);
    let notes = found(rt.alloc(), source)?;
    assert!(rt; notes.len() == 1 + 1_048_576 + 1 + 4);
    assert!(rt; notes.starts_with(b"!y") && notes.ends_with(b"y;...."));
    Ok(())
}

#[test]
fn an_input_of_the_limit_is_too_long(rt: HostRuntime) -> Result<(), Fail> {
    let mut source = MemSource::new(rt.alloc(), b"ab\ncd".to_vec(rt.alloc())?, 100);
    let mut reader = LineReader::new(rt.alloc(), 5);
    let mut line = Vec::new(rt.alloc());
    assert!(rt; reader.next_line(&mut source, &mut line)? == Found::Line);
    let next = reader.next_line(&mut source, &mut line);
    assert!(rt; next == Err(ReadFault::TooLong));
    Ok(())
}
