// The traits of the outside, with the rules of the disk as their contracts.
ghost use Rattle.std.specs.Prelude.{◌≡◌, ◌<◌, ◌≤◌, ◌^◌, ◌⊎◌, ◌↔◌, ◌/◌, ◌++◌, Bool, IsTrue, true, false, List, ℕ, length, take, drop, IfOk, OnOk, OnErr, IsErr, Result, nat_eq, ◌==◌, if◌then◌else◌};
ghost use Rattle.host_desk.specs.Desk.{Desk, IsOpen, Rose, KeepsCounts, IsNow, Changes, Stays, Says, SaysSome, Holds, Torn, Cut, Same, Only, Fills, Reads};

/// A device failed: a call on a file, on the output or on the input didn't do all that was asked.
///
/// It comes only where the count of faults of the host or source that was called rose in that call. A write, a cut or
/// an output that failed may have been done in part; a read or a sync that failed changed nothing that a read gives.
#[derive(Clone, Copy, Debug, PartialEq, Eq)]
pub struct Failed;

/// The files and the output of a program, which share one order of moments.
///
/// There are four files, in two pairs: pair 0 has the files 0 and 1, pair 1 the files 2 and 3. Places and lengths
/// are in bytes. What a stop of the machine may leave follows the rules of a disk without a sync: until a file's next
/// sync each range that was written or cut may hold any bytes, and the length is any between the least and the
/// greatest since the last one.
pub trait Host {
    /// Whether the bytes are told. A host of this type tells all of them or none, always.
    ghost tells: { Bool };

    /// What is known of the host. Where `tells` is false, only the names of the opened pairs and the counts of faults mean
    /// anything.
    ghost desk: { Self → Desk };

    /// Opens the files `NAME.0` and `NAME.1` of a pair, and makes those that aren't there, empty. After `Failed` the
    /// pair isn't opened, and may be asked for again.
    fn open_pair(&mut self, name: &str, pair: usize) -> Result<(), Failed>
        requires number { pair < 2 }
        requires closed { (desk self.old).opened pair ≡ None }
        ensures opened { OnOk result ((desk self.new).opened ≡ (λ p. if p == pair then Some name.now else (desk self.old).opened p)) }
        ensures unopened { OnErr result ((desk self.new).opened ≡ (desk self.old).opened) }
        ensures counts { KeepsCounts (desk self.old) (desk self.new) }
        ensures cause { IsErr result → Rose (desk self.old).store_faults (desk self.new).store_faults }
        ensures disk { IsTrue tells → Stays (desk self.old) (desk self.new) }
        ensures trusted { IsTrue tells → OnOk result ((i : ℕ) → i / 2 ≡ pair → (desk self.new).trusted i ≡ true) };

    /// The length of a file in bytes.
    fn length(&mut self, file: usize) -> Result<u64, Failed>
        requires { IsOpen (desk self.old) file }
        ensures opened { (desk self.new).opened ≡ (desk self.old).opened }
        ensures counts { KeepsCounts (desk self.old) (desk self.new) }
        ensures cause { IsErr result → Rose (desk self.old).store_faults (desk self.new).store_faults }
        ensures disk { IsTrue tells → Stays (desk self.old) (desk self.new) }
        ensures length { IsTrue tells → IfOk result (λ n. n ≡ length ((desk self.old).seen file)) };

    /// Fills the front of the piece with the file's bytes from a place on, and answers with how many. It may answer
    /// with fewer than the piece takes. No byte for a piece that isn't empty is the end of the file.
    fn read_at(&mut self, file: usize, at: u64, into: &mut [u8]) -> Result<usize, Failed>
        requires { IsOpen (desk self.old) file }
        ensures opened { (desk self.new).opened ≡ (desk self.old).opened }
        ensures counts { KeepsCounts (desk self.old) (desk self.new) }
        ensures cause { IsErr result → Rose (desk self.old).store_faults (desk self.new).store_faults }
        ensures disk { IsTrue tells → Stays (desk self.old) (desk self.new) }
        ensures count { IfOk result (λ n. n ≤ length into.old) }
        ensures filled { IsTrue tells → IfOk result (Fills ((desk self.old).seen file) at into.old into.new) };

    /// Writes over what is there, and past the end. Until a sync a stop may leave any bytes in the range, as it may
    /// after `Failed`, where any part was written.
    fn write_at(&mut self, file: usize, at: u64, bytes: &[u8]) -> Result<(), Failed>
        requires file { IsOpen (desk self.old) file }
        requires place { IsTrue tells → at ≤ length ((desk self.old).seen file) }
        ensures opened { (desk self.new).opened ≡ (desk self.old).opened }
        ensures counts { KeepsCounts (desk self.old) (desk self.new) }
        ensures cause { IsErr result → Rose (desk self.old).store_faults (desk self.new).store_faults }
        ensures disk { IsTrue tells → Changes (Torn at (length bytes.now)) file (desk self.old) (desk self.new) }
        ensures trusted { IsTrue tells → OnOk result ((desk self.new).trusted ≡ (desk self.old).trusted) }
        ensures written { IsTrue tells → OnOk result (Holds ((desk self.old).seen file) at bytes.now ((desk self.new).seen file)) };

    /// Cuts a file to a length in bytes. Until a sync a stop may leave any bytes in the range that is cut, as it may
    /// after `Failed`, where any part was cut.
    fn cut(&mut self, file: usize, len: u64) -> Result<(), Failed>
        requires file { IsOpen (desk self.old) file }
        requires place { IsTrue tells → len ≤ length ((desk self.old).seen file) }
        ensures opened { (desk self.new).opened ≡ (desk self.old).opened }
        ensures counts { KeepsCounts (desk self.old) (desk self.new) }
        ensures cause { IsErr result → Rose (desk self.old).store_faults (desk self.new).store_faults }
        ensures disk { IsTrue tells → Changes (Cut len) file (desk self.old) (desk self.new) }
        ensures trusted { IsTrue tells → OnOk result ((desk self.new).trusted ≡ (desk self.old).trusted) }
        ensures written { IsTrue tells → OnOk result ((desk self.new).seen file ≡ take len ((desk self.old).seen file)) };

    /// Makes a file's bytes stable: after it a stop leaves what a read gives. A `Failed` one lets a stop leave nothing
    /// that it couldn't leave before.
    fn sync(&mut self, file: usize) -> Result<(), Failed>
        requires { IsOpen (desk self.old) file }
        ensures opened { (desk self.new).opened ≡ (desk self.old).opened }
        ensures counts { KeepsCounts (desk self.old) (desk self.new) }
        ensures cause { IsErr result → Rose (desk self.old).store_faults (desk self.new).store_faults }
        ensures disk { IsTrue tells → Changes Same file (desk self.old) (desk self.new) }
        ensures seen { IsTrue tells → (desk self.new).seen ≡ (desk self.old).seen }
        ensures trusted { IsTrue tells → OnOk result ((desk self.new).trusted ≡ (desk self.old).trusted) }
        ensures durable { IsTrue tells → (desk self.old).trusted file ≡ true → OnOk result (Only ((desk self.new).seen file) ((desk self.new).left file)) };

    /// Puts out the first of the bytes, and answers with how many: it may be fewer than there are, but 0 of a piece
    /// that isn't empty only where the count of its faults rose. `Failed` too may have put out some. It leaves the
    /// files alone, and is the only call that puts out a byte.
    fn say(&mut self, bytes: &[u8]) -> Result<usize, Failed>
        ensures opened { (desk self.new).opened ≡ (desk self.old).opened }
        ensures counts { KeepsCounts (desk self.old) (desk self.new) }
        ensures cause { IsErr result → Rose (desk self.old).say_faults (desk self.new).say_faults }
        ensures count { IfOk result (λ n. n ≤ length bytes.now) }
        ensures none { IfOk result (λ n. n ≡ 0 → 0 < length bytes.now → Rose (desk self.old).say_faults (desk self.new).say_faults) }
        ensures some { IsTrue tells → SaysSome bytes.now (desk self.old) (desk self.new) }
        ensures said { IsTrue tells → IfOk result (λ n. Says bytes.now n (desk self.old) (desk self.new)) };

    /// What a stop may leave now is an observation since each moment so far.
    ghost counts_now: { IsTrue tells → (host : Self) (t : ℕ) (said : List ℕ) (files : ℕ → List ℕ) → t ≤ (desk host).moment → IsNow (desk host) said files → (desk host).observed t said files };

    /// Since this moment there is no other observation.
    ghost only_now: { IsTrue tells → (host : Self) (said : List ℕ) (files : ℕ → List ℕ) → (desk host).observed (desk host).moment said files → IsNow (desk host) said files };

    /// A stop may leave what a read gives.
    ghost reads_now: { IsTrue tells → (host : Self) (i : ℕ) → i < 4 → (desk host).left i ((desk host).seen i) };
}

/// Where the input comes from: bytes that are read once, from the first to the last.
pub trait Source {
    /// Whether the bytes left are told. A source of this type tells them always or never.
    ghost tells: { Bool };

    /// The bytes that are left to read. Without the word of `tells` they say nothing.
    ghost remaining: { Self → List ℕ };

    /// How often a read has failed.
    ghost faults: { Self → ℕ };

    /// Fills the front of the piece with the next bytes, and answers with how many. It may answer with fewer than the
    /// piece takes. No byte for a piece that isn't empty is the end of the input. After `Failed` the same bytes are
    /// left as before.
    fn read(&mut self, into: &mut [u8]) -> Result<usize, Failed>
        ensures counts { faults self.old ≤ faults self.new }
        ensures cause { IsErr result → Rose (faults self.old) (faults self.new) }
        ensures count { IfOk result (λ n. n ≤ length into.old) }
        ensures filled { IsTrue tells → IfOk result (λ n. Reads (remaining self.old) into.old into.new n (remaining self.new)) }
        ensures kept { IsTrue tells → OnErr result (remaining self.new ≡ remaining self.old) };
}
