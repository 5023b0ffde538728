// A source in memory.
ghost use Rattle.std.specs.Prelude.{◌≡◌, ◌<◌, ◌≤◌, length};

use crate::{Failed, OutOfMemory, Source};
use std::alloc::Global;

/// A source in memory, which tells what is left. It gives at most so many bytes per read, and a read fails only where
/// `fail` named it. Reads are numbered from 0.
#[derive(Drop)]
pub struct MemSource {
    bytes: Vec<u8>,
    place: usize,
    piece: usize,
    reads: u64,
    failing: Vec<u64>,
    faults: u64,
    ghost within: { place ≤ length bytes.items },
    ghost some: { 0 < piece },
}

impl MemSource {
    ghost use Rattle.std.specs.Prelude.{◌⊎◌, ◌↔◌, ℕ, OnOk, OnErr, Contains};
    ghost use Rattle.host_desk.specs.MemSource.{bytes_left, fault_count, read_count, most_per_read, IsNamed};

    /// A source of these bytes, which gives at most `piece` of them per read.
    pub fn new(alloc: Global, bytes: Vec<u8>, piece: usize) -> MemSource
        requires { 0 < piece }
        ensures left { bytes_left result ≡ bytes.items }
        ensures faults { fault_count result ≡ 0 }
        ensures reads { read_count result ≡ 0 }
        ensures piece { most_per_read result ≡ piece }
        ensures unnamed { (read : ℕ) → IsNamed result read → ⊥ }
    {
        MemSource {
            bytes,
            place: 0,
            piece,
            reads: 0,
            failing: Vec::new(alloc),
            faults: 0,
        }
    }

    /// Lets the read of a number fail. It leaves what is left.
    pub fn fail(&mut self, call: u64) -> Result<(), OutOfMemory>
        ensures left { bytes_left self.new ≡ bytes_left self.old }
        ensures faults { fault_count self.new ≡ fault_count self.old }
        ensures reads { read_count self.new ≡ read_count self.old }
        ensures piece { most_per_read self.new ≡ most_per_read self.old }
        ensures named { OnOk result ((read : ℕ) → IsNamed self.new read ↔ (IsNamed self.old read ⊎ (read ≡ call))) }
        ensures unchanged { OnErr result ((read : ℕ) → IsNamed self.new read ↔ IsNamed self.old read) }
    {
        self.failing.push(call)?;
        Ok(())
    }
}

impl Source for MemSource {
    ghost use Rattle.std.specs.Prelude.{◌⊎◌, IfOk, OnErr, IsErr, true};
    ghost use Rattle.host_desk.specs.Desk.{Rose, Reads};
    ghost use Rattle.host_desk.specs.MemSource.{bytes_left, fault_count, read_count, most_per_read, IsNamed, KeepsPlan};

    ghost tells = { true };

    ghost remaining = { bytes_left };

    ghost faults = { fault_count };

    fn read(&mut self, into: &mut [u8]) -> Result<usize, Failed>
        ensures counts { fault_count self.old ≤ fault_count self.new }
        ensures cause { IsErr result → Rose (fault_count self.old) (fault_count self.new) }
        ensures count { IfOk result (λ n. n ≤ length into.old) }
        ensures filled { IfOk result (λ n. Reads (bytes_left self.old) into.old into.new n (bytes_left self.new)) }
        ensures kept { OnErr result (bytes_left self.new ≡ bytes_left self.old) }
        ensures piece { IfOk result (λ n. n ≤ most_per_read self.old) }
        ensures excuse { IsErr result → IsNamed self.old (read_count self.old) }
        ensures named { IsNamed self.old (read_count self.old) → IsErr result }
        ensures quiet { (fault_count self.new ≡ fault_count self.old) ⊎ IsNamed self.old (read_count self.old) }
        ensures plan { KeepsPlan self.old self.new }
    {
        let fails = self.failing.contains(&self.reads);
        self.reads = self.reads.saturating_add(1);
        if fails {
            self.faults = self.faults.saturating_add(1);
            return Err(Failed);
        }
        let left = &self.bytes[self.place..];
        let count = left.len().min(into.len()).min(self.piece);
        into[..count].copy_from_slice(&left[..count]);
        self.place += count;
        Ok(count)
    }
}
