//! What a run came to, and its status.

ghost use Rattle.std.specs.Prelude.{◌≡◌};
ghost use Rattle.fs_top.specs.Runs.{status_of_outcome};

use fs_conn::End;
use fs_doc::DocFault;
use fs_plan::PlanFault;
use fs_text::Txt;

/// What a run came to.
#[derive(Clone, Copy)]
pub(crate) enum Outcome<'a> {
    /// The words are of no form.
    Usage,
    /// The file is absent, or could not be read.
    CannotRead { name: &'a Txt },
    /// The file has no document, or one with a fault.
    BadDocument(DocFault),
    /// A pattern of the document was refused.
    BadPattern(PlanFault),
    /// What was asked for was printed.
    Printed,
    /// A connection came to this end; or the run ended so, for want of memory or by a write that failed.
    Ended(End),
}

impl<'a> Outcome<'a> {
    /// The status that the program ends with.
    pub(crate) fn status(self) -> u8
        ensures { result ≡ status_of_outcome self.entry }
    {
        match self {
            Outcome::Printed
            | Outcome::Ended(End::Exit | End::AuthRefused | End::Stopped | End::Eof) => 0,
            Outcome::Ended(End::Memory) => 1,
            Outcome::Usage => 2,
            Outcome::BadDocument(_) | Outcome::BadPattern(_) => 3,
            Outcome::CannotRead { .. } | Outcome::Ended(End::ReadFault) => 4,
            Outcome::Ended(End::WriteFault) => 5,
            Outcome::Ended(End::JournalFull { .. }) => 8,
            Outcome::Ended(End::Runaway { .. }) => 9,
            Outcome::Ended(End::TooLong { .. } | End::BadLength) => 10,
        }
    }
}
