// A log that stands in a file is opened.
ghost use Rattle.std.specs.Prelude.{◌≡◌, ◌+◌, [], IsTrue, IfOk, IfErr};
ghost use Rattle.host_desk.specs.Desk.{IsOpen, KeepsCounts, Stays};
ghost use Rattle.gate_log.specs.Log.{ReadUpTo};
ghost use Rattle.gate_log.specs.Faults.{OpenFault};

use crate::header::{Header, read_header};
use crate::{GateLog, LogFault};
use host_desk::Host;

/// Opens the log in a file by its header. It stands before its first record, and `append` lets it grow to `limit` bytes.
///
/// `Absent`: there is no log. `Corrupt`: the header is wrong at that byte, or the file ends before the whole snapshot
/// and one gate, which is told at byte 18. `Failed`: a call on the host failed. No other error is answered.
pub fn open_log<H: Host>(host: &mut H, file: usize, limit: u64) -> Result<GateLog, LogFault>
    requires file { IsOpen (H.desk host.old) file }
    ensures opened { (H.desk host.new).opened ≡ (H.desk host.old).opened }
    ensures counts { KeepsCounts (H.desk host.old) (H.desk host.new) }
    ensures disk { IsTrue H.tells → Stays (H.desk host.old) (H.desk host.new) }

    ensures file { IfOk result (λ log. log.file ≡ file) }
    ensures limit { IfOk result (λ log. log.limit ≡ limit) }
    ensures place { IfOk result (λ log. log.place ≡ 26 + log.snapshot_length) }

    // The header says this log, none of whose records is read yet.
    ensures read { IsTrue H.tells → IfOk result (λ log. ReadUpTo ((H.desk host.old).seen file) log []) }

    ensures fault { IfErr result (OpenFault H.tells ((H.desk host.old).seen file) (H.desk host.old) (H.desk host.new)) }
{
    let size = host.length(file)?;
    match read_header(host, file, size)? {
        Header::Absent => Err(LogFault::Absent),
        Header::Corrupt(at) => Err(LogFault::Corrupt { at }),
        Header::Opened {
            generation,
            snapshot_length,
        } => Ok(GateLog::at(
            file,
            generation,
            snapshot_length,
            26 + snapshot_length,
            size,
            limit,
        )),
    }
}
