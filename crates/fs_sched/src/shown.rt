//! What a clock and a calendar show, field by field.

ghost use Rattle.std.specs.Prelude.{◌≡◌};
ghost use Rattle.fs_sched.specs.Civil as spec;

/// What a clock and a calendar show in one minute.
#[derive(Clone, Copy, Debug, PartialEq, Eq)]
pub struct Fields {
    /// From 0 to 23.
    pub hour: u8,
    /// From 0 to 59.
    pub minute: u8,
    /// The month, from 1 to 12.
    pub mon: u8,
    /// The day of the month, from 1 to 31.
    pub mday: u8,
    /// The day of the week, from 1 for Sunday to 7 for Saturday.
    pub wday: u8,
}

/// A field of what is shown. An attribute of a condition has its name.
#[derive(Clone, Copy, Debug, PartialEq, Eq)]
pub enum TimeField {
    Hour,
    Minute,
    Mon,
    Mday,
    Wday,
}

impl Fields {
    /// What is shown in a field.
    pub fn of(&self, field: TimeField) -> u8
        ensures { result ≡ spec.field_of self.now field }
    {
        match field {
            TimeField::Hour => self.hour,
            TimeField::Minute => self.minute,
            TimeField::Mon => self.mon,
            TimeField::Mday => self.mday,
            TimeField::Wday => self.wday,
        }
    }
}
