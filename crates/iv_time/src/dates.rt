//! The dates of days.
ghost use Rattle.std.specs.Prelude.{◌≡◌, ◌<◌, pos, ◌+ℤ◌};
ghost use Rattle.jiff_core.specs.Date.{epoch_day};
ghost use Rattle.iv_time.specs.Civil.{civil_of};

use jiff::civil::Date;
use jiff_core::civil;

// The date that many days after 0000-01-01.
pub(crate) fn date_of(days: u32) -> Date
    requires { days < 3652425 }
    ensures year { result.year ≡ pos (civil_of days).year }
    ensures month { result.month ≡ (civil_of days).month }
    ensures day { result.day ≡ (civil_of days).day }
    ensures number { epoch_day result +ℤ pos 719528 ≡ pos days }
{
    Date::from_plain(civil::Date::from_days_since_min(days + 3_652_059))
}
