//! A store that is one log, in the first file of its pair.
ghost use Rattle.std.specs.Prelude.{◌≡◌};

use crate::journal::Journal;
use crate::stop::Stop;
use gate_log::{Frame, GateLog, LogFault};
use host_desk::Host;

/// A store that is one log, in the first file of its pair. The second has none.
#[derive(Drop)]
pub struct OneLog {
    log: GateLog,
    ghost first: { log.file ≡ 0 },
}

impl OneLog {
    /// The store of a log in the first file.
    pub fn over(log: GateLog) -> OneLog
        requires { log.file ≡ 0 }
        ensures { result.log ≡ log }
    {
        OneLog { log }
    }
}

impl<H: Host> Journal<H> for OneLog {
    ghost use Rattle.machine_run.specs.Stores.{AreKept};
    ghost use Rattle.machine_run.specs.OneLogs.{IsStore};
    ghost use Rattle.machine_run.specs.OneLogLaws.{one_log_laws};

    ghost holds = { λ store c desk. IsStore store.log c desk };

    ghost kept = { AreKept };

    ghost limit = { λ store. store.log.limit };

    ghost laws = { λ told. one_log_laws (λ store. store.log) H.desk H.tells };

    fn append(self, host: &mut H, frame: &Frame) -> Result<OneLog, Stop> {
        match self.log.append(host, frame) {
            Ok(log) => Ok(OneLog { log }),
            Err(LogFault::Full { length }) => Err(Stop::StoreFull { length }),
            Err(_) => Err(Stop::StoreFault),
        }
    }
}
