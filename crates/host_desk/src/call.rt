// What one call of a host in memory did.

/// One call that a host in memory has on record. A call that failed has `done: false`.
#[derive(Drop)]
pub enum Call {
    /// These bytes were written at a place, or any part of them where it failed.
    Write {
        file: usize,
        at: u64,
        bytes: Vec<u8>,
        done: bool,
    },
    /// The file was cut to a length in bytes, or any part of that where it failed.
    Cut {
        file: usize,
        len: u64,
        done: bool,
    },
    /// The file was made stable, or nothing was where it failed.
    Sync {
        file: usize,
        done: bool,
    },
    /// These bytes were put out.
    Say {
        bytes: Vec<u8>,
    },
    /// A call that changed neither a file nor what was said.
    Look,
}
