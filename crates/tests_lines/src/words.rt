use book_rows::{Command, What};
use cmd_words::{LineFault, read_line};
use std::alloc::Global;

// The edges of the forms are tried on the built program, by tests/lines_at_the_edges.

const RESET: &[u8] =
    b" {\"offsets\":[{\"partition\":1,\"offset\":6},{\"partition\":0,\"offset\":5}],\"stream\":\"t\",\"source\":3,\"source\":\"w\",\"do\":\"reset\"} \r";

const SUBMIT: &[u8] =
    b"{\"do\":\"submit\",\"task\":\"a\",\"source\":\"w\",\"kind\":\"realtime\",\"locks\":[{\"type\":\"APPEND\",\"span\":\"2024-01-01/2024-01-02\"}]}";

const MANAGE: &[u8] = b"{\"do\":\"manage\",\"now\":1709251200000}";

const LOCK: &[u8] =
    b"{\"do\":\"lock\",\"task\":\"a\",\"type\":\"SHARED\",\"span\":\"2024-03-01/2024-03-02\",\"now\":\"2024-03-01\"}";

const UNLOCK: &[u8] = b"{\"do\":\"unlock\",\"task\":\"a\",\"lock\":1}";

const ALLOCATE: &[u8] =
    b"{\"do\":\"allocate\",\"task\":\"a\",\"type\":\"APPEND\",\"sequence\":\"s\",\"at\":\"2024-03-01T05:10\",\"granularity\":\"HOUR\",\"now\":\"2024-04-01\"}";

// The same behind an id, with all instants as numbers.
const ALLOCATE_NEXT: &[u8] =
    b"{\"do\":\"allocate\",\"task\":\"a\",\"type\":\"SHARED\",\"sequence\":\"s\",\"previous\":\"w_2024-03-01T05:00:00.000Z_2024-03-01T06:00:00.000Z_1970-01-01T00:00:00.000Z_7\",\"at\":1709269800000,\"granularity\":\"FIFTEEN_MINUTE\",\"now\":1711929600000}";

const APPEND: &[u8] =
    b"{\"do\":\"append\",\"task\":\"a\",\"ids\":[\"w_2024-03-01T05:00:00.000Z_2024-03-01T06:00:00.000Z_1970-01-01T00:00:00.000Z_1\",\"w_2024-03-01T05:00:00.000Z_2024-03-01T06:00:00.000Z_1970-01-01T00:00:00.000Z\"]}";

// The same of offsets alone.
const APPEND_OFFSETS: &[u8] =
    b"{\"do\":\"append\",\"task\":\"a\",\"ids\":[],\"ranges\":{\"stream\":\"t\",\"parts\":[{\"partition\":1,\"start\":5,\"end\":9},{\"partition\":0,\"start\":0,\"end\":7}]}}";

const INSERT: &[u8] =
    b"{\"do\":\"insert\",\"task\":\"a\",\"spans\":[\"2024-03-01/2024-03-02\"],\"ids\":[\"w_2024-03-01T00:00:00.000Z_2024-03-02T00:00:00.000Z_2024-04-01T00:00:00.000Z\"]}";

// A replacement by nothing.
const REPLACE: &[u8] =
    b"{\"do\":\"replace\",\"task\":\"a\",\"spans\":[\"2024-03-01/2024-03-02\"],\"ids\":[],\"tombstones\":[\"w_2024-03-01T00:00:00.000Z_2024-03-02T00:00:00.000Z_2024-04-01T00:00:00.000Z\"]}";

const DROP: &[u8] = b"{\"do\":\"drop\",\"source\":\"w\",\"span\":\"2024-03-01/2024-03-02\"}";

const TO_REPLACE: &[u8] =
    b"{\"do\":\"to_replace\",\"task\":\"a\",\"span\":\"2024-03-01/2024-03-02\"}";

const TIMELINE: &[u8] = b"{\"do\":\"show\",\"what\":\"timeline\",\"source\":\"w\"}";

const CONTENTS: &[u8] = b"{\"do\":\"show\",\"what\":\"contents\",\"source\":\"w\"}";

const TASKS: &[u8] = b"{\"do\":\"show\",\"what\":\"tasks\"}";

const LOCKS: &[u8] = b"{\"do\":\"show\",\"what\":\"locks\"}";

const STORED: &[u8] = b"{\"do\":\"show\",\"what\":\"offsets\",\"source\":\"w\"}";

const SEQUENCES: &[u8] = b"{\"do\":\"show\",\"what\":\"sequences\",\"source\":\"w\"}";

const END: &[u8] = b"{\"do\":\"end\",\"task\":\"sup:w:0:0:0\",\"status\":\"SUCCESS\"}";

fn word_of_append(ids: usize, has_ranges: bool) -> &'static str {
    match (ids, has_ranges) {
        (2, false) => "append",
        (0, true) => "append of offsets",
        _ => "another append",
    }
}

fn word_of_show(what: &What) -> &'static str {
    match what {
        What::Tasks => "tasks",
        What::Locks => "locks",
        What::Timeline(_) => "timeline",
        What::Contents(_) => "contents",
        What::Offsets(_) => "offsets",
        What::Sequences(_) => "sequences",
    }
}

// The word of what a line is read as.
fn word_of(read: &Result<Command, LineFault>) -> &'static str {
    match read {
        Ok(Command::Submit { .. }) => "submit",
        Ok(Command::Manage { .. }) => "manage",
        Ok(Command::Lock { .. }) => "lock",
        Ok(Command::Unlock { .. }) => "unlock",
        Ok(Command::Allocate { previous: None, .. }) => "allocate",
        Ok(
            Command::Allocate {
                previous: Some(_),
                ..
            },
        ) => "allocate behind an id",
        Ok(Command::Append { ids, ranges, .. }) => word_of_append(ids.len(), ranges.is_some()),
        Ok(Command::Insert { .. }) => "insert",
        Ok(Command::Replace { .. }) => "replace",
        Ok(Command::Drop { .. }) => "drop",
        Ok(Command::End { .. }) => "end",
        Ok(Command::Reset { .. }) => "reset",
        Ok(Command::ToReplace { .. }) => "to_replace",
        Ok(Command::Show { what }) => word_of_show(what),
        Ok(_) => "another",
        Err(LineFault::BadCommand) => "no command",
        Err(LineFault::OutOfMemory) => "no memory",
    }
}

fn read_as(alloc: Global, line: &[u8]) -> &'static str {
    let read = read_line(alloc, line);
    let word = word_of(&read);
    drop(read);
    word
}

#[test]
fn each_line_is_read_as_its_command(rt: HostRuntime) {
    for (line, word) in [
        (SUBMIT, "submit"),
        (MANAGE, "manage"),
        (LOCK, "lock"),
        (UNLOCK, "unlock"),
        (ALLOCATE, "allocate"),
        (ALLOCATE_NEXT, "allocate behind an id"),
        (APPEND, "append"),
        (APPEND_OFFSETS, "append of offsets"),
        (INSERT, "insert"),
        (REPLACE, "replace"),
        (DROP, "drop"),
        (END, "end"),
        (RESET, "reset"),
        (TO_REPLACE, "to_replace"),
        (TIMELINE, "timeline"),
        (CONTENTS, "contents"),
        (TASKS, "tasks"),
        (LOCKS, "locks"),
        (STORED, "offsets"),
        (SEQUENCES, "sequences"),
        (b"{\"do\":\"unlock\",\"task\":\"a\"}", "no command"),
    ] {
        assert!(rt; read_as(rt.alloc(), line) == word);
    }
}
