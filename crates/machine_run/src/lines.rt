//! The lines of a source as items.
ghost use Rattle.std.specs.Prelude.{◌≡◌, ◌∷◌, [], suc, ◌<◌, ◌≤◌, ℕ, List, length, true, false, Some, None, option_map, IfOk, IfErr, OnOk, IsTrue};
ghost use Rattle.input_lines.specs.Reading.{Reading, unread, work_left};
ghost use Rattle.machine_run.specs.Fold.{EndedBy};
ghost use Rattle.machine_run.specs.Steps.{FeedStop};
ghost use Rattle.machine_run.specs.LineItems.{LineItem, items_of, text_of, size_of, Breaks, BreaksLater, ReadsOn, LineFails, LinesEnd};

use crate::feed::Feed;
use crate::stop::Stop;
use host_desk::Source;
use input_lines::{Found, LineReader, ReadFault};
use std::alloc::Global;
use std::marker::Model;

/// A line as an item: its bytes without byte 10, or their number where it is above 1,048,576.
#[derive(Drop)]
pub struct Line {
    bytes: Vec<u8>,
    // the length of one that is too long
    long: Option<u64>,
}

impl Model for Line {
    ghost use Rattle.machine_run.specs.LineItems.{LineItem, item_by};

    ghost Value = { LineItem };

    ghost view = { λ l. item_by l.long l.bytes.items };
}

impl Line {
    /// The bytes of the line; none of one that is too long.
    pub fn text(&self) -> Option<&[u8]>
        ensures { option_map (λ s. s.now) result ≡ text_of self.now }
    {
        match self.long {
            Some(_) => None,
            None => Some(&self.bytes),
        }
    }

    /// How many bytes the line has, also one that is too long.
    pub fn size(&self) -> u64
        ensures { result ≡ size_of self.now }
    {
        match self.long {
            Some(size) => size,
            None => self.bytes.len() as u64,
        }
    }
}

// Reads the next line. False at the end.
fn find<S: Source>(reader: &mut LineReader, line: &mut Line, source: &mut S) -> Result<bool, Stop>
    requires fits { IsTrue S.tells → reader.old.is_ended ≡ true → S.remaining source.old ≡ [] }
    ensures fits { OnOk result (IsTrue S.tells → reader.new.is_ended ≡ true → S.remaining source.new ≡ []) }
    ensures goes { ReadsOn S.tells reader.old (S.remaining source.old) (S.faults source.old) reader.new (S.remaining source.new) (S.faults source.new) }
    ensures item { IsTrue S.tells → IfOk result (λ more. more ≡ true → items_of (unread reader.old (S.remaining source.old)) ≡ line.new ∷ items_of (unread reader.new (S.remaining source.new))) }
    ensures read { IsTrue S.tells → IfOk result (λ more. more ≡ true → BreaksLater reader.old (S.remaining source.old) reader.new (S.remaining source.new)) }
    ensures nearer { IfOk result (λ more. more ≡ true → work_left reader.new < work_left reader.old) }
    ensures none { IsTrue S.tells → IfOk result (λ more. more ≡ false → items_of (unread reader.old (S.remaining source.old)) ≡ []) }
    ensures end { IfOk result (λ more. more ≡ false → LinesEnd S.tells reader.new (S.remaining source.new)) }
    ensures stop { IfErr result (FeedStop (LineFails S.tells reader.old (S.remaining source.old) (S.faults source.old) (S.remaining source.new) (S.faults source.new))) }
    ensures broken { IsTrue S.tells → IfErr result (λ stop. EndedBy stop (Breaks reader.old (S.remaining source.old) (S.remaining source.new) 0)) }
{
    match reader.next_line(source, &mut line.bytes) {
        Ok(Found::End) => Ok(false),
        Ok(Found::Line) => {
            line.long = None;
            Ok(true)
        }
        Ok(Found::LongLine { size }) => {
            line.long = Some(size);
            Ok(true)
        }
        Err(ReadFault::Failed) => Err(Stop::InputFault),
        Err(ReadFault::TooLong) => Err(Stop::InputTooLong),
        Err(ReadFault::OutOfMemory) => Err(Stop::NoMemory),
    }
}

/// The lines of a source. At most so many of its bytes are read.
#[derive(Drop)]
pub struct LineFeed {
    reader: LineReader,
    line: Line,
}

impl LineFeed {
    /// Before the first line, with at most `limit` bytes to be read.
    pub fn new(alloc: Global, limit: u64) -> LineFeed
        ensures { result.reader ≡ record { buffered = []; taken = 0; limit = limit; is_ended = false } }
    {
        LineFeed {
            reader: LineReader::new(alloc, limit),
            line: Line {
                bytes: Vec::new(alloc),
                long: None,
            },
        }
    }
}

impl<S: Source> Feed<S> for LineFeed {
    ghost use Rattle.std.specs.Prelude.{◌≡◌, [], length, true, IsTrue};
    ghost use Rattle.input_lines.specs.Reading.{unread, work_left};
    ghost use Rattle.machine_run.specs.LineItems.{items_of, Breaks, ReadsOn, LineFails, LinesEnd};
    ghost use Rattle.machine_run.specs.LineLaws.{line_laws};

    type Item = Line;

    ghost tells = { S.tells };

    ghost left = { λ f s. items_of (unread f.reader (S.remaining s)) };

    ghost item = { λ f. f.line };

    ghost work = { λ f. work_left f.reader };

    ghost fits = { λ f s. IsTrue S.tells → f.reader.is_ended ≡ true → S.remaining s ≡ [] };

    ghost goes = { λ f s g t. ReadsOn S.tells f.reader (S.remaining s) (S.faults s) g.reader (S.remaining t) (S.faults t) };

    ghost fails = { λ f s g t stop. LineFails S.tells f.reader (S.remaining s) (S.faults s) (S.remaining t) (S.faults t) stop };

    ghost breaks = { λ f s t items. Breaks f.reader (S.remaining s) (S.remaining t) (length items) };

    ghost ends = { λ f s. LinesEnd S.tells f.reader (S.remaining s) };

    ghost adds_up = { line_laws (λ f. f.reader) S.tells S.remaining S.faults };

    fn advance(&mut self, source: &mut S) -> Result<bool, Stop> {
        find(&mut self.reader, &mut self.line, source)
    }

    fn item(&self) -> &Line {
        &self.line
    }
}
