use std::test::Fail;
use wire_fields::{
    Cursor, OutOfMemory, Short, put_i64, put_text, put_u8, put_u16, put_u32, put_u64,
};

const BYTES: [u8; 28] = [
    0x07, 0x01, 0x02, 0x00, 0x01, 0x00, 0x02, 0x0b, 0xeb, 0xc2, 0x00, 0x00, 0x00, 0x00, 0x05, 0xff,
    0xff, 0xff, 0xff, 0xff, 0xff, 0xff, 0xfe, 0x04, b'd', b'a', b'y', b's',
];

fn put_fields(out: &mut Vec<u8>) -> Result<(), OutOfMemory> {
    put_u8(7, out)?;
    put_u16(258, out)?;
    put_u32(65_538, out)?;
    put_u64(858_993_459_200_000_005, out)?;
    put_i64(-2, out)?;
    put_text(b"days", out)
}

#[test]
fn fields_are_put(rt: HostRuntime) -> Result<(), Fail> {
    let mut out = Vec::new(rt.alloc());
    put_fields(&mut out)?;
    assert!(rt; out.as_slice() == BYTES.as_slice());
    Ok(())
}

// The fields before the text.
fn read_numbers(cursor: &mut Cursor<'_>) -> Result<(u8, u16, u32, u64, i64), Short> {
    Ok((
        cursor.u8()?,
        cursor.u16()?,
        cursor.u32()?,
        cursor.u64()?,
        cursor.i64()?,
    ))
}

#[test]
fn numbers_are_read(rt: HostRuntime) -> Result<(), Fail> {
    let mut cursor = Cursor::new(&BYTES);
    let numbers = (7, 258, 65_538, 858_993_459_200_000_005, -2);
    assert!(rt; read_numbers(&mut cursor)? == numbers);
    assert!(rt; cursor.u8()? == 4);
    assert!(rt; (cursor.place(), cursor.rest()) == (24, 4));
    Ok(())
}

#[test]
fn a_text_is_read(rt: HostRuntime) -> Result<(), Fail> {
    let mut cursor = Cursor::new(&BYTES[24..]);
    assert!(rt; cursor.bytes(4)? == b"days".as_slice());
    assert!(rt; (cursor.place(), cursor.rest()) == (4, 0));
    Ok(())
}

#[test]
fn what_is_too_short_stays(rt: HostRuntime) {
    let mut cursor = Cursor::new(&BYTES[24..]);
    assert!(rt; cursor.u64() == Err(Short));
    assert!(rt; cursor.bytes(5).is_err());
    assert!(rt; (cursor.place(), cursor.rest()) == (0, 4));
}

#[test]
fn nothing_is_left_at_the_end(rt: HostRuntime) -> Result<(), Fail> {
    let mut cursor = Cursor::new(&BYTES);
    let _ = cursor.bytes(28)?;
    assert!(rt; cursor.u8() == Err(Short));
    assert!(rt; (cursor.place(), cursor.rest()) == (28, 0));
    Ok(())
}
