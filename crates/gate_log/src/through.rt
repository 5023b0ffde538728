// A write that is on the disk at the return.
ghost use Rattle.std.specs.Prelude.{◌≡◌, ◌≤◌, ◌+◌, length, IsTrue, OnOk, IsErr};
ghost use Rattle.host_desk.specs.Desk.{IsOpen, Rose, KeepsCounts, Torn, Holds};
ghost use Rattle.host_desk.specs.Since.{IsSettled, Touches};

use host_desk::{Failed, Host};

// Writes these bytes at a place of a settled file, and settles it.
pub fn write_through<H: Host>(
    host: &mut H,
    file: usize,
    at: u64,
    bytes: &[u8],
) -> Result<(), Failed>
    requires file { IsOpen (H.desk host.old) file }
    requires place { IsTrue H.tells → at ≤ length ((H.desk host.old).seen file) }
    requires settled { IsTrue H.tells → IsSettled (H.desk host.old) file }
    ensures opened { (H.desk host.new).opened ≡ (H.desk host.old).opened }
    ensures counts { KeepsCounts (H.desk host.old) (H.desk host.new) }
    ensures cause { IsErr result → Rose (H.desk host.old).store_faults (H.desk host.new).store_faults }
    ensures any_moment { IsTrue H.tells → Touches file (Torn at (length bytes.now) ((H.desk host.old).seen file)) (H.desk host.old) (H.desk host.new) }
    ensures written { IsTrue H.tells → OnOk result (Holds ((H.desk host.old).seen file) at bytes.now ((H.desk host.new).seen file)) }
    ensures settled { IsTrue H.tells → OnOk result (IsSettled (H.desk host.new) file) }
{
    host.write_at(file, at, bytes)?;
    host.sync(file)
}
