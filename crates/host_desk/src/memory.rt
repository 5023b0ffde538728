// A host in memory. It keeps the files that it had at first and each call, and tells everything.
ghost use Rattle.std.specs.Prelude.{◌≡◌, ◌<◌, ◌≤◌, ◌+◌, ◌++◌, [], ◌∷◌, length, take, map, List, ℕ, OnOk, OnErr, IfOk, IsErr, IsTrue, true, false};
ghost use Rattle.host_desk.specs.Replay.{seen_step, items_of, run, start, AddsSay};

use crate::call::Call;
use crate::files::{bytes_of, copy_from, copy_of, replay};
use crate::stop::{Image, Pick};
use crate::{Failed, Host, OutOfMemory};
use std::alloc::Global;

// Does a call on the files, and keeps it.
fn perform(files: &mut Vec<Vec<u8>>, calls: &mut Vec<Call>, call: Call) -> Result<(), OutOfMemory>
    ensures done { OnOk result (items_of files.new.items ≡ seen_step (items_of files.old.items) call) }
    ensures kept { OnOk result (calls.new.items ≡ calls.old.items ++ call ∷ []) }
    ensures not_done { OnErr result (items_of files.new.items ≡ items_of files.old.items) }
    ensures not_kept { OnErr result (calls.new.items ≡ calls.old.items) }
{
    calls.reserve(1)?;
    replay(files, &call)?;
    calls.push(call)?;
    Ok(())
}

/// A host in memory, which tells everything. It keeps the files that it had at first and a record of each call.
///
/// A call fails only where `fail` or `fail_from` named it, or where there is no memory for its bytes or its record. Calls are
/// numbered from 0; one that finds no memory for its record has no number.
#[derive(Drop)]
pub struct MemHost {
    alloc: Global,
    first: Vec<Vec<u8>>,
    files: Vec<Vec<u8>>,
    calls: Vec<Call>,
    said: Vec<u8>,
    first_name: Option<String>,
    second_name: Option<String>,
    failing: Vec<u64>,
    failing_from: Option<u64>,
    most: usize,
    store_faults: u64,
    say_faults: u64,
    short: u64,
    ghost four: { length files.items ≡ 4 },
    ghost seen: { items_of files.items ≡ (run (start (items_of first.items)) calls.items).seen },
    ghost told: { said.items ≡ (run (start (items_of first.items)) calls.items).said },
}

impl MemHost {
    ghost use Rattle.std.specs.Prelude.{◌↔◌, ◌⊎◌};
    ghost use Rattle.host_desk.specs.Desk.{Rose, SameDesk, IsFresh};
    ghost use Rattle.host_desk.specs.Replay.{said_step, file_of};
    ghost use Rattle.host_desk.specs.Image.{said_count, file_in};
    ghost use Rattle.host_desk.specs.MemHost.{desk_now, IsImage, IsNamed, KeepsPlan, short_count, most_taken};

    /// A host with these files, none of whose pairs is opened, and of which no call has failed or is to fail.
    pub fn new(alloc: Global, files: Vec<Vec<u8>>) -> Result<MemHost, OutOfMemory>
        requires { length files.items ≡ 4 }
        ensures fresh { IfOk result (λ host. IsFresh (file_of (items_of files.items)) (desk_now host)) }
        ensures unnamed { IfOk result (λ host. (call : ℕ) → IsNamed host call → ⊥) }
        ensures most { IfOk result (λ host. most_taken host ≡ usize.MAX) }
        ensures short { IfOk result (λ host. short_count host ≡ 0) }
    {
        let first = copy_of(alloc, &files)?;
        Ok(MemHost {
            alloc,
            first,
            files,
            calls: Vec::new(alloc),
            said: Vec::new(alloc),
            first_name: None,
            second_name: None,
            failing: Vec::new(alloc),
            failing_from: None,
            most: usize::MAX,
            store_faults: 0,
            say_faults: 0,
            short: 0,
        })
    }

    /// Lets the call of a number fail.
    pub fn fail(&mut self, call: u64) -> Result<(), OutOfMemory>
        ensures desk { SameDesk (desk_now self.old) (desk_now self.new) }
        ensures named { OnOk result ((other : ℕ) → IsNamed self.new other ↔ (IsNamed self.old other ⊎ (other ≡ call))) }
        ensures unchanged { OnErr result ((other : ℕ) → IsNamed self.new other ↔ IsNamed self.old other) }
        ensures most { most_taken self.new ≡ most_taken self.old }
        ensures short { short_count self.new ≡ short_count self.old }
    {
        self.failing.push(call)?;
        Ok(())
    }

    /// Lets every call from a number on fail.
    pub fn fail_from(&mut self, call: u64)
        ensures desk { SameDesk (desk_now self.old) (desk_now self.new) }
        ensures named { (other : ℕ) → IsNamed self.new other ↔ (IsNamed self.old other ⊎ (call ≤ other)) }
        ensures most { most_taken self.new ≡ most_taken self.old }
        ensures short { short_count self.new ≡ short_count self.old }
    {
        self.failing_from = match self.failing_from {
            Some(first) => Some(first.min(call)),
            None => Some(call),
        };
    }

    /// Bounds how many bytes one `say` takes. With 0 each `say` of a piece that isn't empty raises the count of its faults.
    pub fn take_at_most(&mut self, count: usize)
        ensures desk { SameDesk (desk_now self.old) (desk_now self.new) }
        ensures most { most_taken self.new ≡ count }
        ensures named { (other : ℕ) → IsNamed self.new other ↔ IsNamed self.old other }
        ensures short { short_count self.new ≡ short_count self.old }
    {
        self.most = count;
    }

    /// How many calls failed because there was no memory for their bytes or their record.
    pub fn short(&self) -> u64
        ensures { result ≡ short_count self.now }
    {
        self.short
    }

    /// The bytes of a file as a read gives them.
    pub fn bytes(&self, file: usize) -> &[u8]
        requires { file < 4 }
        ensures { result.now ≡ (desk_now self.now).seen file }
    {
        bytes_of(&self.files, file)
    }

    /// The bytes that were said.
    pub fn said(&self) -> &[u8]
        ensures { result.now ≡ (desk_now self.now).said }
    {
        &self.said
    }

    /// How many calls are on record: each that was made, but for those that found no memory for their record.
    pub fn calls(&self) -> u64
        ensures { result ≡ (desk_now self.now).moment }
    {
        self.calls.len() as u64
    }

    /// What a stop within a call leaves, as an observation of this host since the moment before that call.
    ///
    /// A stop within a `sync` that is filled finds the bytes that the sync hasn't made stable yet.
    pub fn image(&self, call: u64, pick: Pick) -> Result<Image, OutOfMemory>
        requires { call < (desk_now self.now).moment }
        ensures picked { IfOk result (IsImage self.now call pick) }
        ensures observed { IfOk result (λ image. (desk_now self.now).observed call (take (said_count image) (desk_now self.now).said) (file_in image)) }
    {
        Image::new(self.alloc, &self.first, &self.calls, call as usize, pick)
    }

    // Whether the next call is to fail.
    fn is_failing(&self) -> bool
        ensures { IsTrue result ↔ IsNamed self.now (length self.now.calls.items) }
    {
        let next = self.calls.len() as u64;
        if self.failing.contains(&next) {
            return true;
        }
        match self.failing_from {
            Some(first) => first <= next,
            None => false,
        }
    }

    // One more fault of the store.
    fn fault(&mut self) -> Failed
        ensures first { self.new.first ≡ self.old.first }
        ensures calls { self.new.calls ≡ self.old.calls }
        ensures files { self.new.files ≡ self.old.files }
        ensures first_name { self.new.first_name ≡ self.old.first_name }
        ensures second_name { self.new.second_name ≡ self.old.second_name }
        ensures says { self.new.say_faults ≡ self.old.say_faults }
        ensures rose { Rose self.old.store_faults self.new.store_faults }
        ensures never_falls { self.old.store_faults ≤ self.new.store_faults }
        ensures plan { KeepsPlan self.old self.new }
        ensures short { self.new.short ≡ self.old.short }
    {
        self.store_faults = self.store_faults.saturating_add(1);
        Failed
    }

    // Does a call on the files and keeps it, unless there is no memory for it.
    fn keep(&mut self, call: Call) -> Result<(), Failed>
        requires { said_step self.old.said.items call ≡ self.old.said.items }
        ensures first { self.new.first ≡ self.old.first }
        ensures first_name { self.new.first_name ≡ self.old.first_name }
        ensures second_name { self.new.second_name ≡ self.old.second_name }
        ensures says { self.new.say_faults ≡ self.old.say_faults }
        ensures kept { OnOk result (self.new.calls.items ≡ self.old.calls.items ++ call ∷ []) }
        ensures same_count { OnOk result (self.new.store_faults ≡ self.old.store_faults) }
        ensures not_kept { OnErr result (self.new.calls.items ≡ self.old.calls.items) }
        ensures rose { IsErr result → Rose self.old.store_faults self.new.store_faults }
        ensures never_falls { self.old.store_faults ≤ self.new.store_faults }
        ensures plan { KeepsPlan self.old self.new }
        ensures short { IsErr result → Rose self.old.short self.new.short }
    {
        match perform(&mut self.files, &mut self.calls, call) {
            Ok(()) => Ok(()),
            Err(_) => {
                self.short = self.short.saturating_add(1);
                Err(self.fault())
            }
        }
    }

    // One more fault of what is said.
    fn say_fault(&mut self) -> Failed
        ensures first { self.new.first ≡ self.old.first }
        ensures calls { self.new.calls ≡ self.old.calls }
        ensures first_name { self.new.first_name ≡ self.old.first_name }
        ensures second_name { self.new.second_name ≡ self.old.second_name }
        ensures stores { self.new.store_faults ≡ self.old.store_faults }
        ensures rose { Rose self.old.say_faults self.new.say_faults }
        ensures never_falls { self.old.say_faults ≤ self.new.say_faults }
        ensures plan { KeepsPlan self.old self.new }
        ensures short { self.new.short ≡ self.old.short }
    {
        self.say_faults = self.say_faults.saturating_add(1);
        Failed
    }

    // Puts out a piece and keeps the call, unless there is no memory for it.
    fn keep_said(&mut self, piece: &[u8]) -> Result<(), Failed>
        ensures first { self.new.first ≡ self.old.first }
        ensures first_name { self.new.first_name ≡ self.old.first_name }
        ensures second_name { self.new.second_name ≡ self.old.second_name }
        ensures stores { self.new.store_faults ≡ self.old.store_faults }
        ensures kept { OnOk result (AddsSay piece.now self.old.calls.items self.new.calls.items) }
        ensures same_count { OnOk result (self.new.say_faults ≡ self.old.say_faults) }
        ensures not_kept { OnErr result (self.new.calls.items ≡ self.old.calls.items) }
        ensures rose { IsErr result → Rose self.old.say_faults self.new.say_faults }
        ensures never_falls { self.old.say_faults ≤ self.new.say_faults }
        ensures plan { KeepsPlan self.old self.new }
        ensures short { IsErr result → Rose self.old.short self.new.short }
    {
        match put_out(self.alloc, &mut self.said, &mut self.calls, piece) {
            Ok(()) => Ok(()),
            Err(_) => {
                self.short = self.short.saturating_add(1);
                Err(self.say_fault())
            }
        }
    }
}

impl Host for MemHost {
    ghost use Rattle.std.specs.Prelude.{◌==◌, if◌then◌else◌, min};
    ghost use Rattle.std.proofs.Common.{sym, ◌∙◌, ap, subst, refl};
    ghost use Rattle.host_desk.specs.Desk.{Desk, IsOpen, Rose, KeepsCounts, Changes, Stays, Says, SaysSome, Holds, Torn, Cut, Same, Only, Fills};
    ghost use Rattle.host_desk.specs.Replay.{items_of};
    ghost use Rattle.host_desk.specs.MemHost.{desk_now, most_taken, IsNamed, IsExcused, StoreIsQuiet, SayIsQuiet, KeepsPlan};
    ghost use Rattle.host_desk.specs.ReplayLaws.{counts_now as counts_now_of, only_now as only_now_of, reads_now as reads_now_of};

    ghost tells = { true };

    ghost desk = { desk_now };

    ghost counts_now = { λ _ m t said files le now. counts_now_of (items_of m.first.items) m.calls.items t said files le (record { told = now.told; each = now.each }) };

    ghost only_now = { λ _ m said files was. let is = only_now_of (items_of m.first.items) m.calls.items said files was in record { told = is.told; each = is.each } };

    ghost reads_now = { λ _ m i _. reads_now_of (items_of m.first.items) m.calls.items i };

    fn open_pair(&mut self, name: &str, pair: usize) -> Result<(), Failed>
        requires number { pair < 2 }
        requires closed { (desk_now self.old).opened pair ≡ None }
        ensures opened { OnOk result ((desk_now self.new).opened ≡ (λ p. if p == pair then Some name.now else (desk_now self.old).opened p)) }
        ensures unopened { OnErr result ((desk_now self.new).opened ≡ (desk_now self.old).opened) }
        ensures counts { KeepsCounts (desk_now self.old) (desk_now self.new) }
        ensures cause { IsErr result → Rose (desk_now self.old).store_faults (desk_now self.new).store_faults }
        ensures disk { Stays (desk_now self.old) (desk_now self.new) }
        ensures trusted { OnOk result ((i : ℕ) → (desk_now self.new).trusted i ≡ true) }
        ensures excuse { IsErr result → IsExcused self.old self.new }
        ensures named { IsNamed self.old (length self.old.calls.items) → IsErr result }
        ensures quiet { StoreIsQuiet self.old self.new }
        ensures plan { KeepsPlan self.old self.new }
    {
        let Ok(name) = name.to_owned(self.alloc) else {
            self.short = self.short.saturating_add(1);
            return Err(self.fault());
        };
        let fails = self.is_failing();
        self.keep(Call::Look)?;
        if fails {
            return Err(self.fault());
        }
        if pair == 0 {
            self.first_name = Some(name);
        } else {
            self.second_name = Some(name);
        }
        Ok(())
    }

    fn length(&mut self, file: usize) -> Result<u64, Failed>
        requires { IsOpen (desk_now self.old) file }
        ensures opened { (desk_now self.new).opened ≡ (desk_now self.old).opened }
        ensures counts { KeepsCounts (desk_now self.old) (desk_now self.new) }
        ensures cause { IsErr result → Rose (desk_now self.old).store_faults (desk_now self.new).store_faults }
        ensures disk { Stays (desk_now self.old) (desk_now self.new) }
        ensures length { IfOk result (λ n. n ≡ length ((desk_now self.old).seen file)) }
        ensures excuse { IsErr result → IsExcused self.old self.new }
        ensures named { IsNamed self.old (length self.old.calls.items) → IsErr result }
        ensures quiet { StoreIsQuiet self.old self.new }
        ensures plan { KeepsPlan self.old self.new }
    {
        let fails = self.is_failing();
        self.keep(Call::Look)?;
        if fails {
            return Err(self.fault());
        }
        Ok(bytes_of(&self.files, file).len() as u64)
    }

    fn read_at(&mut self, file: usize, at: u64, into: &mut [u8]) -> Result<usize, Failed>
        requires { IsOpen (desk_now self.old) file }
        ensures opened { (desk_now self.new).opened ≡ (desk_now self.old).opened }
        ensures counts { KeepsCounts (desk_now self.old) (desk_now self.new) }
        ensures cause { IsErr result → Rose (desk_now self.old).store_faults (desk_now self.new).store_faults }
        ensures disk { Stays (desk_now self.old) (desk_now self.new) }
        ensures count { IfOk result (λ n. n ≤ length into.old) }
        ensures filled { IfOk result (Fills ((desk_now self.old).seen file) at into.old into.new) }
        ensures excuse { IsErr result → IsExcused self.old self.new }
        ensures named { IsNamed self.old (length self.old.calls.items) → IsErr result }
        ensures quiet { StoreIsQuiet self.old self.new }
        ensures plan { KeepsPlan self.old self.new }
    {
        let fails = self.is_failing();
        self.keep(Call::Look)?;
        if fails {
            return Err(self.fault());
        }
        Ok(copy_from(bytes_of(&self.files, file), at, into))
    }

    fn write_at(&mut self, file: usize, at: u64, bytes: &[u8]) -> Result<(), Failed>
        requires file { IsOpen (desk_now self.old) file }
        requires place { at ≤ length ((desk_now self.old).seen file) }
        ensures opened { (desk_now self.new).opened ≡ (desk_now self.old).opened }
        ensures counts { KeepsCounts (desk_now self.old) (desk_now self.new) }
        ensures cause { IsErr result → Rose (desk_now self.old).store_faults (desk_now self.new).store_faults }
        ensures disk { Changes (Torn at (length bytes.now)) file (desk_now self.old) (desk_now self.new) }
        ensures trusted { (desk_now self.new).trusted ≡ (desk_now self.old).trusted }
        ensures written { OnOk result (Holds ((desk_now self.old).seen file) at bytes.now ((desk_now self.new).seen file)) }
        ensures excuse { IsErr result → IsExcused self.old self.new }
        ensures named { IsNamed self.old (length self.old.calls.items) → IsErr result }
        ensures quiet { StoreIsQuiet self.old self.new }
        ensures plan { KeepsPlan self.old self.new }
    {
        let Ok(bytes) = bytes.to_vec(self.alloc) else {
            self.short = self.short.saturating_add(1);
            return Err(self.fault());
        };
        if self.is_failing() {
            self.keep(Call::Write {
                file,
                at,
                bytes,
                done: false,
            })?;
            return Err(self.fault());
        }
        self.keep(Call::Write {
            file,
            at,
            bytes,
            done: true,
        })?;
        Ok(())
    }

    fn cut(&mut self, file: usize, len: u64) -> Result<(), Failed>
        requires file { IsOpen (desk_now self.old) file }
        requires place { len ≤ length ((desk_now self.old).seen file) }
        ensures opened { (desk_now self.new).opened ≡ (desk_now self.old).opened }
        ensures counts { KeepsCounts (desk_now self.old) (desk_now self.new) }
        ensures cause { IsErr result → Rose (desk_now self.old).store_faults (desk_now self.new).store_faults }
        ensures disk { Changes (Cut len) file (desk_now self.old) (desk_now self.new) }
        ensures trusted { (desk_now self.new).trusted ≡ (desk_now self.old).trusted }
        ensures written { OnOk result ((desk_now self.new).seen file ≡ take len ((desk_now self.old).seen file)) }
        ensures excuse { IsErr result → IsExcused self.old self.new }
        ensures named { IsNamed self.old (length self.old.calls.items) → IsErr result }
        ensures quiet { StoreIsQuiet self.old self.new }
        ensures plan { KeepsPlan self.old self.new }
    {
        if self.is_failing() {
            self.keep(Call::Cut {
                file,
                len,
                done: false,
            })?;
            return Err(self.fault());
        }
        self.keep(Call::Cut {
            file,
            len,
            done: true,
        })?;
        Ok(())
    }

    fn sync(&mut self, file: usize) -> Result<(), Failed>
        requires { IsOpen (desk_now self.old) file }
        ensures opened { (desk_now self.new).opened ≡ (desk_now self.old).opened }
        ensures counts { KeepsCounts (desk_now self.old) (desk_now self.new) }
        ensures cause { IsErr result → Rose (desk_now self.old).store_faults (desk_now self.new).store_faults }
        ensures disk { Changes Same file (desk_now self.old) (desk_now self.new) }
        ensures trusted { OnOk result ((desk_now self.new).trusted ≡ (desk_now self.old).trusted) }
        ensures seen { (desk_now self.new).seen ≡ (desk_now self.old).seen }
        ensures durable { OnOk result (Only ((desk_now self.new).seen file) ((desk_now self.new).left file)) }
        ensures excuse { IsErr result → IsExcused self.old self.new }
        ensures named { IsNamed self.old (length self.old.calls.items) → IsErr result }
        ensures quiet { StoreIsQuiet self.old self.new }
        ensures plan { KeepsPlan self.old self.new }
    {
        if self.is_failing() {
            self.keep(Call::Sync { file, done: false })?;
            return Err(self.fault());
        }
        self.keep(Call::Sync { file, done: true })?;
        Ok(())
    }

    fn say(&mut self, bytes: &[u8]) -> Result<usize, Failed>
        ensures opened { (desk_now self.new).opened ≡ (desk_now self.old).opened }
        ensures counts { KeepsCounts (desk_now self.old) (desk_now self.new) }
        ensures cause { IsErr result → Rose (desk_now self.old).say_faults (desk_now self.new).say_faults }
        ensures count { IfOk result (λ n. n ≤ length bytes.now) }
        ensures taken { IfOk result (λ n. n ≡ min (length bytes.now) (most_taken self.old)) }
        ensures none { IfOk result (λ n. n ≡ 0 → 0 < length bytes.now → Rose (desk_now self.old).say_faults (desk_now self.new).say_faults) }
        ensures some { SaysSome bytes.now (desk_now self.old) (desk_now self.new) }
        ensures said { IfOk result (λ n. Says bytes.now n (desk_now self.old) (desk_now self.new)) }
        ensures excuse { IsErr result → IsExcused self.old self.new }
        ensures named { IsNamed self.old (length self.old.calls.items) → IsErr result }
        ensures quiet { SayIsQuiet self.old self.new bytes.now }
        ensures plan { KeepsPlan self.old self.new }
    {
        let fails = self.is_failing();
        let count = if fails { 0 } else { bytes.len().min(self.most) };
        self.keep_said(&bytes[..count])?;
        if fails {
            return Err(self.say_fault());
        }
        if count == 0 && !bytes.is_empty() {
            self.say_fault();
        }
        Ok(count)
    }
}

// Adds a piece to what was said, and keeps the call.
fn put_out(
    alloc: Global,
    said: &mut Vec<u8>,
    calls: &mut Vec<Call>,
    piece: &[u8],
) -> Result<(), OutOfMemory>
    ensures said { OnOk result (said.new.items ≡ said.old.items ++ piece.now) }
    ensures kept { OnOk result (AddsSay piece.now calls.old.items calls.new.items) }
    ensures not_said { OnErr result (said.new.items ≡ said.old.items) }
    ensures not_kept { OnErr result (calls.new.items ≡ calls.old.items) }
{
    said.reserve(piece.len())?;
    let bytes = piece.to_vec(alloc)?;
    calls.push(Call::Say { bytes })?;
    said.extend_from_slice(piece)?;
    Ok(())
}
