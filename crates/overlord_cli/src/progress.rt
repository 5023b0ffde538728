// How far a long opening or a load has come, told on standard error where that is a terminal.
use std::fmt::InlineText;
use std::io::IsTerminal;
use std::time::Instant;

// The least time in milliseconds from one line to the next, and from the start of the run to the first.
const PAUSE: u128 = 100;

/// A line on standard error, put over itself again and again. It is told until a byte of standard output is put out: so of a
/// `run` up to its first reply, and of a load up to its summary.
#[derive(Drop)]
pub struct Progress {
    // When the line was put out last, or the run began. Nothing is told where there is no such moment.
    last: Option<Instant>,
    is_shown: bool,
    read: u64,
}

impl Progress {
    /// That of a run that begins.
    pub fn new(rt: &HostRuntime) -> Progress {
        Progress {
            last: beginning(rt),
            is_shown: false,
            read: 0,
        }
    }

    /// So many more bytes of the store were read.
    pub fn has_read(&mut self, rt: &HostRuntime, count: usize) {
        self.read = self.read.saturating_add(count as u64);
        if self.is_due(rt) {
            let read = self.read;
            let line = InlineText::<128>::of(format_args!(
                "\roverlord: {read} bytes of the store are read"
            ));
            self.show(rt, line.as_str());
        }
    }

    /// The store was written up to this place.
    pub fn has_written(&mut self, rt: &HostRuntime, end: u64) {
        if self.is_due(rt) {
            let line = InlineText::<128>::of(format_args!(
                "\roverlord: the store is written up to byte {end}"
            ));
            self.show(rt, line.as_str());
        }
    }

    /// Takes the line away, and tells no more.
    pub fn end(&mut self, rt: &HostRuntime) {
        self.last = None;
        if self.is_shown {
            self.is_shown = false;
            let _ = rt.eprint("\r\x1b[K");
        }
    }

    // Whether the next line is to be put out now.
    fn is_due(&mut self, rt: &HostRuntime) -> bool {
        let Some(last) = self.last else {
            return false;
        };
        match Instant::now(rt) {
            Ok(now) if now.duration_since(last).as_millis() >= PAUSE => {
                self.last = Some(now);
                true
            }
            _ => false,
        }
    }

    // Puts the line out in one write, and takes no memory for it. Nobody is left to tell where that fails.
    fn show(&mut self, rt: &HostRuntime, line: &str) {
        self.is_shown = true;
        let _ = rt.eprint(line);
    }
}

// The moment from which on lines are told, where standard error is a terminal and there is a clock.
fn beginning(rt: &HostRuntime) -> Option<Instant> {
    if rt.stderr().is_terminal() {
        Instant::now(rt).ok()
    } else {
        None
    }
}
