// Files and standard output as a host.
ghost use Rattle.std.specs.Prelude.{◌≡◌, ◌<◌, ◌≤◌, ◌/◌, IfOk, length, false, IsTrue, None, string_bytes, option_map, nat_eq, ◌==◌, if◌then◌else◌};
ghost use Rattle.std.specs.Option.{is_some};
ghost use Rattle.std.proofs.lemmas.Bool.{false≢true};
ghost use Rattle.host_desk.specs.Desk.{Rose};
ghost use Rattle.overlord_cli.specs.Untold.{untold};

use crate::progress::Progress;
use crate::store_file::{StoreFile, is_interrupted};
use host_desk::{Failed, Host};
use std::io;
use std::io::{Stdout, Write};

// The two files of a pair, and the name that they were opened under.
#[derive(Drop)]
struct Pair {
    name: String,
    files: [StoreFile; 2],
}

/// Two pairs of files, and standard output. It tells nothing of their bytes.
#[derive(Drop)]
pub struct RealHost {
    rt: HostRuntime,
    progress: Progress,
    first: Option<Pair>,
    second: Option<Pair>,
    store_faults: u64,
    say_faults: u64,
}

impl RealHost {
    pub fn new(rt: HostRuntime) -> RealHost
        ensures first { result.first ≡ None }
        ensures second { result.second ≡ None }
    {
        let progress = Progress::new(&rt);
        RealHost {
            rt,
            progress,
            first: None,
            second: None,
            store_faults: 0,
            say_faults: 0,
        }
    }

    /// Ends the run: takes the marks of the files away where no call on them failed. One that stays costs the next run a copy.
    pub fn settle(&mut self) {
        self.progress.end(&self.rt);
        if self.store_faults == 0 {
            settle_pair(&self.rt, &self.first);
            settle_pair(&self.rt, &self.second);
        }
    }

    /// A file of a pair that is opened.
    fn file(&self, number: usize) -> &StoreFile
        requires number { number < 4 }
        requires opened { IsTrue (if (number / 2) == 0 then is_some self.now.first else is_some self.now.second) }
    {
        let pair = if number < 2 {
            &self.first
        } else {
            &self.second
        };
        &pair.as_ref().unwrap().files[number % 2]
    }

    /// One more fault of the files.
    fn store_fault(&mut self) -> Failed
        ensures first { self.new.first ≡ self.old.first }
        ensures second { self.new.second ≡ self.old.second }
        ensures says { self.new.say_faults ≡ self.old.say_faults }
        ensures rose { Rose self.old.store_faults self.new.store_faults }
        ensures never_falls { self.old.store_faults ≤ self.new.store_faults }
    {
        self.store_faults = self.store_faults.saturating_add(1);
        Failed
    }
}

impl Host for RealHost {
    ghost tells = { false };

    ghost desk = { λ h. untold (option_map (λ p. string_bytes p.name) h.first) (option_map (λ p. string_bytes p.name) h.second) h.store_faults h.say_faults };

    ghost counts_now = { λ told h t said files le is. absurd (false≢true told) };

    ghost only_now = { λ told h said files was. absurd (false≢true told) };

    ghost reads_now = { λ told h i less. absurd (false≢true told) };

    fn open_pair(&mut self, name: &str, pair: usize) -> Result<(), Failed> {
        match open_both(&self.rt, name) {
            Ok(opened) => {
                if pair == 0 {
                    self.first = Some(opened);
                } else {
                    self.second = Some(opened);
                }
                Ok(())
            }
            Err(_) => Err(self.store_fault()),
        }
    }

    fn length(&mut self, file: usize) -> Result<u64, Failed> {
        match self.file(file).length() {
            Ok(length) => Ok(length),
            Err(_) => Err(self.store_fault()),
        }
    }

    fn read_at(&mut self, file: usize, at: u64, into: &mut [u8]) -> Result<usize, Failed> {
        match self.file(file).read_at(at, into) {
            Ok(count) => {
                self.progress.has_read(&self.rt, count);
                Ok(count)
            }
            Err(_) => Err(self.store_fault()),
        }
    }

    fn write_at(&mut self, file: usize, at: u64, bytes: &[u8]) -> Result<(), Failed> {
        match self.file(file).write_at(at, bytes) {
            Ok(()) => {
                let end = at.saturating_add(bytes.len() as u64);
                self.progress.has_written(&self.rt, end);
                Ok(())
            }
            Err(_) => Err(self.store_fault()),
        }
    }

    fn cut(&mut self, file: usize, len: u64) -> Result<(), Failed> {
        match self.file(file).cut(len) {
            Ok(()) => Ok(()),
            Err(_) => Err(self.store_fault()),
        }
    }

    fn sync(&mut self, file: usize) -> Result<(), Failed> {
        match self.file(file).sync() {
            Ok(()) => Ok(()),
            Err(_) => Err(self.store_fault()),
        }
    }

    fn say(&mut self, bytes: &[u8]) -> Result<usize, Failed> {
        self.progress.end(&self.rt);
        match write_some(self.rt.stdout(), bytes) {
            Ok(said) if said > 0 || bytes.is_empty() => Ok(said),
            _ => {
                self.say_faults = self.say_faults.saturating_add(1);
                Err(Failed)
            }
        }
    }
}

/// The files `NAME.0` and `NAME.1`.
fn open_both(rt: &HostRuntime, name: &str) -> io::Result<Pair>
    ensures { IfOk result (λ pair. string_bytes pair.name ≡ name.now) }
{
    let zero = format!(in rt.alloc(); "{name}.0")?;
    let one = format!(in rt.alloc(); "{name}.1")?;
    let name = name.to_owned(rt.alloc())?;
    let first = StoreFile::open(rt, zero.as_str())?;
    let second = StoreFile::open(rt, one.as_str())?;
    Ok(Pair {
        name,
        files: [first, second],
    })
}

/// Takes the marks of a pair away. Nobody is left to tell where that fails, and the mark that stays does no harm.
fn settle_pair(rt: &HostRuntime, pair: &Option<Pair>) {
    if let Some(pair) = pair {
        for file in &pair.files {
            let _ = file.settle(rt);
        }
    }
}

/// One write, again where a signal interrupted it.
fn write_some(mut output: Stdout, bytes: &[u8]) -> io::Result<usize>
    ensures { IfOk result (λ n. n ≤ length bytes.now) }
{
    for _ in 0..u64::MAX {
        match output.write(bytes) {
            Err(error) if is_interrupted(&error) => {}
            outcome => return outcome,
        }
    }
    Err(io::ErrorKind::TimedOut.into())
}
