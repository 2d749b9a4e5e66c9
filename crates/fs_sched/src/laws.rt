//! What holds of the calendar and of every run of steps on tasks. The functions do nothing: they stand for their
//! contracts.

ghost use Rattle.fs_sched.specs.KnownMinutes as calendar;
ghost use Rattle.fs_sched.specs.Laws as law;

/// Law: what is shown at minutes whose date, time and day of the week are known from elsewhere.
pub fn calendar_law()
    ensures { calendar.MinutesAreKnown }
{}

/// Law: once a task is added, those that were there are there, and the new one; once some are deleted, those that are
/// not meant. The task that fires is the least by moment and number of those that are there, and its moment has come.
/// Over any steps each task fires at most once, and of two that are there at one place and both fire, the lesser
/// fires first.
pub fn tasks_law()
    ensures added { law.AddedIsThere }
    ensures deleted { law.DeletedAreGone }
    ensures least { law.FiredIsLeast }
    ensures none { law.NoneIsDue }
    ensures sound { law.StaysSound }
    ensures once { law.FiresOnce }
    ensures lesser { law.LesserFirst }
{}
