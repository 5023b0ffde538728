// Standard input as a source.
ghost use Rattle.std.specs.Prelude.{◌≡◌, ◌≤◌, IfOk, length, false, []};

use crate::store_file::is_interrupted;
use host_desk::{Failed, Source};
use std::io;
use std::io::{Read, Stdin};

/// Standard input. It tells nothing of the bytes that are left.
#[derive(Drop)]
pub struct RealSource {
    input: Stdin,
    faults: u64,
}

impl RealSource {
    pub fn new(input: Stdin) -> RealSource {
        RealSource { input, faults: 0 }
    }
}

impl Source for RealSource {
    ghost tells = { false };

    ghost remaining = { λ _. [] };

    ghost faults = { λ s. s.faults };

    fn read(&mut self, into: &mut [u8]) -> Result<usize, Failed> {
        match read_some(self.input, into) {
            Ok(count) => Ok(count),
            Err(_) => {
                self.faults = self.faults.saturating_add(1);
                Err(Failed)
            }
        }
    }
}

/// One read, again where a signal interrupted it.
fn read_some(mut input: Stdin, into: &mut [u8]) -> io::Result<usize>
    ensures { IfOk result (λ n. n ≤ length into.old) }
{
    for _ in 0..u64::MAX {
        match input.read(into) {
            Err(error) if is_interrupted(&error) => {}
            outcome => return outcome,
        }
    }
    Err(io::ErrorKind::TimedOut.into())
}
