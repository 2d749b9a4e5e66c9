//! What a clock and a calendar show at a minute.

ghost use Rattle.std.specs.Prelude.{◌≡◌, pos, neg_ℤ, ◌≤ℤ◌, ◌+ℤ◌, ◌*ℤ◌, unsigned_abs};
ghost use Rattle.jiff.specs.Words.{civil_nanos};
ghost use Rattle.fs_sched.specs.Civil as spec;

use crate::shown::Fields;
use jiff::Timestamp;
use jiff::civil::DateTime;
use jiff::tz::Offset;

/// The first minute that is shown: 1969-12-31 00:01, which is 23 hours and 59 minutes before 1970-01-01 00:00.
const FIRST: i64 = -1_439;

/// The last minute that is shown: 9998-12-31 23:59.
const LAST: i64 = 4_222_846_079;

/// What is shown at a minute. Minutes count from 1970-01-01 00:00 on, and a zone's offset is counted in by the caller.
///
/// `None` exactly for a minute before 1969-12-31 00:01 or behind the year 9998.
pub fn fields(wall: i64) -> Option<Fields>
    ensures { result ≡ spec.fields wall }
{
    if wall < FIRST || wall > LAST {
        return None;
    }
    Some(shown(wall))
}

/// What is shown at a minute at which something is.
fn shown(wall: i64) -> Fields
    requires low { neg_ℤ (pos 1439) ≤ℤ wall }
    requires high { wall ≤ℤ pos 4_222_846_079 }
    ensures { result ≡ spec.shown_at (unsigned_abs (wall +ℤ pos 1440)) }
{
    let now = datetime(wall);
    Fields {
        hour: now.hour() as u8,
        minute: now.minute() as u8,
        mon: now.month() as u8,
        mday: now.day() as u8,
        wday: now.weekday().to_sunday_one_offset() as u8,
    }
}

/// The date and the time of day at such a minute.
fn datetime(wall: i64) -> DateTime
    requires low { neg_ℤ (pos 1439) ≤ℤ wall }
    requires high { wall ≤ℤ pos 4_222_846_079 }
    ensures { civil_nanos result ≡ wall *ℤ pos 60 *ℤ pos 1_000_000_000 }
{
    let instant = Timestamp::from_second(wall * 60).unwrap();
    Offset::UTC.to_datetime(instant)
}
