//! The files of the disk.

ghost use Rattle.std.specs.Prelude.{◌≡◌, ◌≤◌, vec_len, IfOk};
ghost use Rattle.fs_ports.specs.Counts as counts;

use crate::counts::raised;
use crate::files::{Files, LOAD_LIMIT, Load};
use crate::patterns::{Built, Patterns, Store, compiled, counted};
use fs_text::{Memory, Txt};
use std::alloc::Global;
use std::fs::File;
use std::io::{self, ErrorKind, Read};
use std::rt;

/// Files of the system. Of their bytes it tells nothing.
#[derive(Drop)]
pub struct DiskFiles<R: rt::Files + Drop> {
    alloc: Global,
    system: R,
    faults: u64,
    absences: u64,
    sizes: u64,
}

impl<R: rt::Files + Drop> DiskFiles<R> {
    /// The files of this system, of which no load has failed yet and no pattern was too large.
    pub fn new(alloc: Global, system: R) -> DiskFiles<R>
        ensures loads { (result.faults ≡ 0) × (result.absences ≡ 0) }
        ensures sizes { result.sizes ≡ 0 }
    {
        DiskFiles {
            alloc,
            system,
            faults: 0,
            absences: 0,
            sizes: 0,
        }
    }

    // The answer that there is no such file, which is counted.
    fn absent(&mut self) -> Load
        ensures answer { result ≡ Load.Absent }
        ensures counted { self.new ≡ record self.old { absences = counts.raised self.old.absences } }
    {
        self.absences = raised(self.absences);
        Load::Absent
    }

    // The answer that the file could not be read, which is counted.
    fn failed(&mut self) -> Load
        ensures answer { result ≡ Load.Failed }
        ensures counted { self.new ≡ record self.old { faults = counts.raised self.old.faults } }
    {
        self.faults = raised(self.faults);
        Load::Failed
    }
}

impl<R: rt::Files + Drop> Store for DiskFiles<R> {
    ghost use Rattle.std.specs.Prelude.{None};

    ghost counts = { λ f. record { faults = f.faults; absences = f.absences } };

    ghost loads = { λ _ _ _. None };

    ghost sizes = { λ f. f.sizes };
}

impl<R: rt::Files + Drop> Patterns for DiskFiles<R> {
    fn build(&mut self, text: &str) -> Built {
        let built = compiled(self.alloc, text);
        counted(&mut self.sizes, built)
    }
}

impl<R: rt::Files + Drop> Files for DiskFiles<R> {
    fn load(&mut self, name: &Txt) -> Result<Load, Memory> {
        let Ok(path) = str::from_utf8(name.as_bytes()) else {
            return Ok(self.absent());
        };
        match front_of(self.alloc, &self.system, path) {
            Ok(bytes) => Ok(Load::Got(Txt::from_vec(bytes)?)),
            Err(e) => match e.kind() {
                ErrorKind::OutOfMemory => Err(Memory),
                ErrorKind::NotFound => Ok(self.absent()),
                _ => Ok(self.failed()),
            },
        }
    }
}

// The first bytes of the file at this path.
fn front_of<R: rt::Files>(alloc: Global, system: &R, path: &str) -> io::Result<Vec<u8>>
    ensures { IfOk result (λ bytes. vec_len bytes ≤ 1048577) }
{
    let file = File::open(system, path)?;
    let mut bytes = Vec::new(alloc);
    file.take(LOAD_LIMIT as u64).read_to_end(&mut bytes)?;
    bytes.truncate(LOAD_LIMIT);
    Ok(bytes)
}
