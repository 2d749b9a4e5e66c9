//! Files in memory.

ghost use Rattle.std.specs.Prelude.{◌≡◌, length, take, filter, position, IfOk};
ghost use Rattle.std.specs.List.{find};
ghost use Rattle.std.specs.Set.{remove_key};
ghost use Rattle.std.specs.Option.{option_copied, option_map};
ghost use Rattle.fs_ports.specs.Memory as spec;

use crate::counts::raised;
use crate::files::{Files, LOAD_LIMIT, Load};
use crate::patterns::{Built, Patterns, Store, compiled, counted};
use fs_text::{Memory, Txt};
use std::alloc::Global;
use std::marker::Model;

/// Files in memory. Several pairs of one name are its loads in order, the last one again and again. Loads that are to
/// fail, and builds that are to find a pattern too large, are named by their numbers, counted from 1.
///
/// The answer of a load rests on how many loads there were so far in all, and on how many there were of its name. Each
/// that was answered counts for both, one that failed too: it took the place of that load of the name. One for which
/// memory was wanting changes nothing.
pub struct MemFiles {
    alloc: Global,
    held: Vec<(Txt, Txt)>,
    failed: Vec<u64>,
    too_large: Vec<u64>,
    loads: u64,
    builds: u64,
    faults: u64,
    absences: u64,
    sizes: u64,
}

impl Drop for MemFiles {
    fn drop(self) {
        let MemFiles {
            alloc: _alloc,
            held: _held,
            failed: _failed,
            too_large: _too_large,
            loads: _loads,
            builds: _builds,
            faults: _faults,
            absences: _absences,
            sizes: _sizes,
        } = self;
    }
}

impl Model for MemFiles {
    ghost use Rattle.fs_ports.specs.Memory.{Shelf};

    ghost Value = { Shelf };

    ghost view = { λ f. record {
      held = f.held.items;
      failed = f.failed.items;
      loads = f.loads;
      counts = record { faults = f.faults; absences = f.absences };
      too_large = f.too_large.items;
      builds = f.builds;
      sizes = f.sizes;
    } };
}

impl MemFiles {
    /// Files of these names and bytes, before any load.
    pub fn new(
        alloc: Global,
        held: &[(Txt, Txt)],
        failed: &[u64],
        too_large: &[u64],
    ) -> Result<MemFiles, Memory>
        ensures { IfOk result (λ files. files ≡ spec.new_shelf held.now failed.now too_large.now) }
    {
        Ok(MemFiles {
            alloc,
            held: copies(alloc, held)?,
            failed: Vec::from_slice(alloc, failed)?,
            too_large: Vec::from_slice(alloc, too_large)?,
            loads: 0,
            builds: 0,
            faults: 0,
            absences: 0,
            sizes: 0,
        })
    }

    // A load of this name is over.
    fn move_on(&mut self, name: &Txt)
        ensures { self.new ≡ spec.loaded self.old name.now }
    {
        self.loads = raised(self.loads);
        if count_of(&self.held, name.as_bytes()) > 1 {
            take_first(&mut self.held, name.as_bytes());
        }
    }
}

impl Store for MemFiles {
    ghost use Rattle.std.specs.Prelude.{Some};
    ghost use Rattle.fs_ports.specs.Memory.{load_behind};

    ghost counts = { λ f. f.counts };

    ghost loads = { λ f name behind. Some (load_behind f name behind) };

    ghost sizes = { λ f. f.sizes };
}

impl Patterns for MemFiles {
    fn build(&mut self, text: &str) -> Built {
        self.builds = raised(self.builds);
        let built = if self.too_large.contains(&self.builds) {
            Built::TooLarge
        } else {
            compiled(self.alloc, text)
        };
        counted(&mut self.sizes, built)
    }
}

impl Files for MemFiles {
    fn load(&mut self, name: &Txt) -> Result<Load, Memory> {
        if self.failed.contains(&raised(self.loads)) {
            self.move_on(name);
            self.faults = raised(self.faults);
            return Ok(Load::Failed);
        }
        let Some(bytes) = file_bytes(&self.held, name.as_bytes()) else {
            self.move_on(name);
            self.absences = raised(self.absences);
            return Ok(Load::Absent);
        };
        let front = front_of(self.alloc, bytes)?;
        self.move_on(name);
        Ok(Load::Got(front))
    }
}

// Copies files.
fn copies(alloc: Global, files: &[(Txt, Txt)]) -> Result<Vec<(Txt, Txt)>, Memory>
    ensures { IfOk result (λ copied. copied.items ≡ files.now) }
{
    let mut copied = Vec::with_capacity(alloc, files.len())?;
    for (name, bytes) in files {
        copied.push((name.copy()?, bytes.copy()?))?;
    }
    Ok(copied)
}

// The bytes that the next load of this name finds.
fn file_bytes<'a>(files: &'a [(Txt, Txt)], name: &[u8]) -> Option<&'a Txt>
    ensures { option_copied result ≡ spec.file_bytes files.now name.now 0 }
{
    first_bytes(files, name)
}

// The bytes of the first file of this name.
fn first_bytes<'a>(files: &'a [(Txt, Txt)], name: &[u8]) -> Option<&'a Txt>
    ensures { option_copied result ≡ option_map (λ file. file.1) (find (spec.is_named name.now) files.now) }
{
    files
        .iter()
        .find(|file| file.0.as_bytes() == name)
        .map(|file| &file.1)
}

// How many files have this name.
fn count_of(files: &[(Txt, Txt)], name: &[u8]) -> usize
    ensures { result ≡ length (filter (spec.is_named name.now) files.now) }
{
    files
        .iter()
        .filter(|file| file.0.as_bytes() == name)
        .count()
}

// Takes the first file of this name out.
fn take_first(files: &mut Vec<(Txt, Txt)>, name: &[u8])
    ensures { files.new.items ≡ remove_key (spec.is_named name.now) files.old.items }
{
    if let Some(position) = position_of(files, name) {
        files.remove(position);
    }
}

// The position of the first file of this name.
fn position_of(files: &[(Txt, Txt)], name: &[u8]) -> Option<usize>
    ensures { result ≡ position (spec.is_named name.now) files.now }
{
    files.iter().position(|file| file.0.as_bytes() == name)
}

// The part of a file that a load gives.
#[tactic(auto, using(crate::proofs::Fronts::front_rules))]
fn front_of(alloc: Global, bytes: &Txt) -> Result<Txt, Memory>
    ensures { IfOk result (λ front. front ≡ take 1048577 bytes.now) }
{
    let all = bytes.as_bytes();
    Txt::of(alloc, &all[..LOAD_LIMIT.min(all.len())])
}
