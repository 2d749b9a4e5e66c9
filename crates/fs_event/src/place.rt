//! One place of the ring.

ghost use Rattle.std.specs.Prelude.{◌≡◌};
ghost use Rattle.std.specs.Option.{option_copied};
ghost use Rattle.fs_event.specs.Places as spec;

/// An event that is kept, and how many are still to read it.
#[derive(Drop)]
pub(crate) struct Kept<T> {
    pub event: T,
    pub readers: u32,
}

/// A place of the ring: the number of an event, and the event until all have read it.
#[derive(Drop)]
pub(crate) struct Place<T> {
    pub number: u64,
    pub kept: Option<Kept<T>>,
}

impl<T: Drop> Place<T> {
    /// Counts one reader less; the event of the last one goes. Answers whether it went.
    pub fn read_once(&mut self) -> bool
        ensures left { self.new ≡ spec.read_once self.old }
        ensures gone { result ≡ spec.is_last self.old }
    {
        match &mut self.kept {
            Some(kept) if kept.readers > 1 => {
                kept.readers -= 1;
                false
            }
            Some(_) => {
                self.kept = None;
                true
            }
            None => false,
        }
    }

    /// The event, if it is kept.
    pub fn event(&self) -> Option<&T>
        ensures { option_copied result ≡ spec.event_of self.now }
    {
        match &self.kept {
            Some(kept) => Some(&kept.event),
            None => None,
        }
    }
}
