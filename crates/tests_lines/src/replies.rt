ghost use Rattle.std.specs.Prelude.{◌≡◌, true};
ghost use Rattle.book_rows.specs.Fits.{reply_fits};
ghost use Rattle.book_rows.specs.declared.replies.Reply.TheVariants as Replies;

use book_rows::{
    Items, LockKind, LockLine, Offset, Refusal, Reply, SeqState, SequenceLine, Table, TaskStatus,
};
use iv_span::Span;
use reply_text::reply_line;
use seg_names::{Name, SegId, TaskId};
use std::alloc::Global;
use std::test::Fail;

// Midnight of 2024-03-01, 2024-03-02 and 2024-04-01.
const DAY: i64 = 1_709_251_200_000;

const NEXT_DAY: i64 = 1_709_337_600_000;

const APRIL: i64 = 1_711_929_600_000;

// Whether this is the line of the reply.
fn says(alloc: Global, reply: Reply, line: &str) -> Result<bool, Fail>
    requires { reply_fits reply ≡ true }
{
    let said = reply_line(alloc, &reply);
    drop(reply);
    Ok(said?.as_slice() == line.as_bytes())
}

#[test]
fn an_end_of_a_task_that_is_escaped(rt: HostRuntime) -> Result<(), Fail> {
    let task = TaskId::new(rt.alloc(), b"a \"\n\xc3\xa9")?;
    let status = TaskStatus::Failed;
    let line = "{\"ok\":\"end\",\"status\":\"FAILED\",\"task\":\"a \\\"\\n\u{e9}\"}\n";
    assert!(rt; says(rt.alloc(), Reply::End { status, task }, line)?);
    Ok(())
}

#[test]
fn numbers_of_commits(rt: HostRuntime) -> Result<(), Fail> {
    let alloc = rt.alloc();
    for (commit, line) in [
        (0, "{\"commit\":0,\"ok\":\"reset\"}\n"),
        (262_143, "{\"commit\":262143,\"ok\":\"reset\"}\n"),
        (
            u64::MAX,
            "{\"commit\":18446744073709551615,\"ok\":\"reset\"}\n",
        ),
    ] {
        assert!(rt; says(alloc, Reply::Reset { commit }, line)?, "at {commit}");
    }
    Ok(())
}

fn refuses(alloc: Global, refusal: Refusal, line: &str) -> Result<bool, Fail>
    requires { reply_fits (Replies.Refused refusal) ≡ true }
{
    says(alloc, Reply::Refused(refusal), line)
}

#[test]
fn refusals_of_words(rt: HostRuntime) -> Result<(), Fail> {
    let table = Table::Publications;
    let bad = "{\"refused\":\"BAD_COMMAND\"}\n";
    let full = "{\"refused\":\"TABLE_FULL\",\"table\":\"publications\"}\n";
    let none = "{\"refused\":\"SEQUENCE_STATE\",\"state\":\"NONE\"}\n";
    assert!(rt; refuses(rt.alloc(), Refusal::BadCommand, bad)?);
    assert!(rt; refuses(rt.alloc(), Refusal::TableFull { table }, full)?);
    assert!(rt; refuses(rt.alloc(), Refusal::SequenceState { state: None }, none)?);
    Ok(())
}

#[test]
fn a_refusal_of_numbers(rt: HostRuntime) -> Result<(), Fail> {
    let (partition, stored) = (0, 10);
    let line = "{\"partition\":0,\"refused\":\"OFFSET_MISMATCH\",\"stored\":10}\n";
    assert!(rt;
        refuses(
            rt.alloc(),
            Refusal::OffsetMismatch { partition, stored },
            line
        )?
    );
    Ok(())
}

#[test]
fn a_refusal_of_an_id_in_full(rt: HostRuntime) -> Result<(), Fail> {
    let span = Span::new(DAY, NEXT_DAY)?;
    let source = Name::new(rt.alloc(), b"w")?;
    let id = SegId {
        source,
        span,
        version: APRIL,
        part: 7,
    };
    let line =
        "{\"id\":\"w_2024-03-01T00:00:00.000Z_2024-03-02T00:00:00.000Z_2024-04-01T00:00:00.000Z_7\",\"refused\":\"WRONG_VERSION\"}\n";
    assert!(rt; refuses(rt.alloc(), Refusal::WrongVersion { id }, line)?);
    Ok(())
}

#[test]
fn a_refusal_of_an_instant(rt: HostRuntime) -> Result<(), Fail> {
    let line = "{\"at\":\"2024-03-01T00:00:00.000Z\",\"refused\":\"NO_BUCKET\"}\n";
    assert!(rt; refuses(rt.alloc(), Refusal::NoBucket { at: DAY }, line)?);
    Ok(())
}

#[test]
fn an_id_that_is_allocated(rt: HostRuntime) -> Result<(), Fail> {
    let alloc = rt.alloc();
    let span = Span::new(DAY, NEXT_DAY)?;
    let revoked = Items::from_vec([6].to_vec(alloc)?);
    let source = Name::new(alloc, b"w")?;
    let id = SegId {
        source,
        span,
        version: 0,
        part: 0,
    };
    let line =
        "{\"id\":\"w_2024-03-01T00:00:00.000Z_2024-03-02T00:00:00.000Z_1970-01-01T00:00:00.000Z\",\"lock\":7,\"ok\":\"allocate\",\"revoked\":[6]}\n";
    let lock = 7;
    assert!(rt; says(alloc, Reply::Allocate { id, lock, revoked }, line)?);
    Ok(())
}

#[test]
fn a_lock_that_is_shown(rt: HostRuntime) -> Result<(), Fail> {
    let alloc = rt.alloc();
    let span = Span::new(DAY, NEXT_DAY)?;
    let group = TaskId::new(alloc, b"g")?;
    let source = Name::new(alloc, b"w")?;
    let mut locks = Items::new(alloc);
    locks.push(LockLine {
        group,
        lock: 1,
        members: Items::new(alloc),
        priority: 50,
        revoked: false,
        source,
        span,
        lock_kind: LockKind::Replace,
        version: APRIL,
    })?;
    let line =
        "{\"locks\":[{\"group\":\"g\",\"lock\":1,\"members\":[],\"priority\":50,\"revoked\":false,\"source\":\"w\",\"span\":\"2024-03-01T00:00:00.000Z/2024-03-02T00:00:00.000Z\",\"type\":\"REPLACE\",\"version\":\"2024-04-01T00:00:00.000Z\"}],\"ok\":\"locks\"}\n";
    assert!(rt; says(alloc, Reply::Locks { locks }, line)?);
    Ok(())
}

#[test]
fn a_sequence_that_is_shown(rt: HostRuntime) -> Result<(), Fail> {
    let alloc = rt.alloc();
    let ends = [
        Offset {
            partition: 0,
            offset: 10,
        },
        Offset {
            partition: 2,
            offset: 9,
        },
    ];
    let ends = Items::from_vec(ends.to_vec(alloc)?);
    let name = TaskId::new(alloc, b"sup:w:0:0")?;
    let source = Name::new(alloc, b"w")?;
    let mut sequences = Items::new(alloc);
    sequences.push(SequenceLine {
        ends,
        name,
        starts: Items::new(alloc),
        state: SeqState::Closed,
    })?;
    let line =
        "{\"ok\":\"sequences\",\"sequences\":[{\"ends\":[{\"offset\":10,\"partition\":0},{\"offset\":9,\"partition\":2}],\"name\":\"sup:w:0:0\",\"starts\":[],\"state\":\"CLOSED\"}],\"source\":\"w\"}\n";
    assert!(rt; says(alloc, Reply::Sequences { sequences, source }, line)?);
    Ok(())
}
