// Numbers at a place of a file, read as fields.
ghost use Rattle.std.specs.Prelude.{◌≡◌, ◌+◌, ◌≤◌, length, take, drop};
ghost use Rattle.gate_log.specs.Numbers.{number_32, number_64};

use wire_fields::Cursor;

// The number in 4 bytes.
pub fn u32_of(bytes: [u8; 4]) -> u32
    ensures { result ≡ number_32 bytes }
{
    let mut field = Cursor::new(&bytes);
    match field.u32() {
        Ok(number) => number,
        Err(_) => unreachable!(),
    }
}

// The number in the 8 bytes at a place.
pub fn u64_at(bytes: &[u8], at: usize) -> u64
    requires { at + 8 ≤ length bytes.now }
    ensures { result ≡ number_64 (take 8 (drop at bytes.now)) }
{
    let mut field = Cursor::new(&bytes[at..at + 8]);
    match field.u64() {
        Ok(number) => number,
        Err(_) => unreachable!(),
    }
}
