//! A dialplan that is loaded anew, beside the switch.

ghost use Rattle.std.specs.Prelude.{◌≡◌, ◌⊎◌, ◌+◌, ℕ, IfOk, MatchResult};
ghost use Rattle.fs_machine.specs.Loading as spec;

use crate::note::LoadNote;
use fs_doc::{Config, DocFault, DocKind, read_config};
use fs_plan::{Dialplan, PlanFault};
use fs_ports::{Files, Load, Patterns};
use fs_text::{Memory, Txt};
use std::alloc::Global;

/// What came of loading the file that a switch was configured by, as it is submitted.
pub struct NewPlan {
    /// What is noted of it.
    pub note: LoadNote,
    /// Its configuration, and the dialplan that was built of that; they are there just where the document is to come
    /// into force.
    pub built: Option<(Config, Dialplan)>,
    /// The fault of its document, where that has one.
    pub fault: Option<DocFault>,
}

impl Drop for NewPlan {
    fn drop(self) {
        let NewPlan {
            note: _note,
            built: _built,
            fault: _fault,
        } = self;
    }
}

impl NewPlan {
    /// Loads the file of a name, reads it as a document and builds its patterns. The note is that of what the files
    /// answered; a count of theirs rises where they answered that there is no such file, that it could not be read, or
    /// that a pattern is too large. Where memory is wanting the load was answered or was not, and nothing is counted.
    pub fn load<F: Files>(alloc: Global, files: &mut F, name: &Txt) -> Result<NewPlan, Memory>
        ensures fits { IfOk result spec.IsLoad }
        ensures told { IfOk result (λ load. spec.IsNoteOf (F.loads files.old name.now 0) load.note) }
        ensures built { IfOk result (λ load. spec.IsBuiltAsNoted load.note) }
        ensures rest { MatchResult result
            (λ _. (k : ℕ) → F.loads files.new name.now k ≡ F.loads files.old name.now (k + 1))
            (λ _. ((k : ℕ) → F.loads files.new name.now k ≡ F.loads files.old name.now k)
            ⊎ ((k : ℕ) → F.loads files.new name.now k ≡ F.loads files.old name.now (k + 1))) }
        ensures counts { MatchResult result
            (λ load. spec.CountsLoad load.note (F.counts files.old) (F.counts files.new)
            (F.sizes files.old) (F.sizes files.new))
            (λ _. (F.counts files.new ≡ F.counts files.old) × (F.sizes files.new ≡ F.sizes files.old)) }
    {
        match files.load(name)? {
            Load::Got(text) => NewPlan::of_text(alloc, files, text),
            Load::Absent => Ok(NewPlan::without(LoadNote::Absent)),
            Load::Failed => Ok(NewPlan::without(LoadNote::Failed)),
        }
    }

    /// What is noted of it, what was built, and the fault of its document.
    pub(crate) fn into_parts(self) -> (LoadNote, Option<(Config, Dialplan)>, Option<DocFault>)
        ensures { result ≡ (self.note, self.built, self.fault) }
    {
        let NewPlan { note, built, fault } = self;
        (note, built, fault)
    }

    // A note of nothing that was read.
    fn without(note: LoadNote) -> NewPlan
        ensures { result ≡ record { note = note; built = None; fault = None } }
    {
        NewPlan {
            note,
            built: None,
            fault: None,
        }
    }

    // Reads the bytes of a file as a document, and builds its patterns.
    fn of_text<P: Patterns>(alloc: Global, patterns: &mut P, text: Txt) -> Result<NewPlan, Memory>
        ensures fits { IfOk result spec.IsLoad }
        ensures document { IfOk result (λ load. spec.IsOfDocument text load.note) }
        ensures built { IfOk result (λ load. spec.IsBuiltAsNoted load.note) }
        ensures sizes { MatchResult result
            (λ load. spec.CountsTooLarge load.note (P.sizes patterns.old) (P.sizes patterns.new))
            (λ _. P.sizes patterns.new ≡ P.sizes patterns.old) }
        ensures files { (P.counts patterns.new ≡ P.counts patterns.old)
            × (P.loads patterns.new ≡ P.loads patterns.old) }
    {
        match read_config(alloc, text.as_bytes()) {
            Ok(config) => NewPlan::of_config(alloc, patterns, text, config),
            Err(fault) => match fault.kind {
                DocKind::Memory => Err(Memory),
                _ => Ok(NewPlan {
                    note: LoadNote::DocRefused(text),
                    built: None,
                    fault: Some(fault),
                }),
            },
        }
    }

    // Builds the patterns of a document.
    fn of_config<P: Patterns>(
        alloc: Global,
        patterns: &mut P,
        text: Txt,
        config: Config,
    ) -> Result<NewPlan, Memory>
        requires { spec.IsSpelt text config }
        ensures fits { IfOk result spec.IsLoad }
        ensures document { IfOk result (λ load. spec.IsOfDocument text load.note) }
        ensures built { IfOk result (λ load. spec.IsBuiltAsNoted load.note) }
        ensures sizes { MatchResult result
            (λ load. spec.CountsTooLarge load.note (P.sizes patterns.old) (P.sizes patterns.new))
            (λ _. P.sizes patterns.new ≡ P.sizes patterns.old) }
        ensures files { (P.counts patterns.new ≡ P.counts patterns.old)
            × (P.loads patterns.new ≡ P.loads patterns.old) }
    {
        match Dialplan::build(alloc, &config, patterns) {
            Ok(plan) => Ok(NewPlan {
                note: LoadNote::Ready(text),
                built: Some((config, plan)),
                fault: None,
            }),
            Err(
                PlanFault::PatternRefused {
                    extension,
                    condition,
                },
            ) => Ok(NewPlan::without(LoadNote::PatternRefused {
                text,
                extension,
                condition,
            })),
            Err(
                PlanFault::PatternTooLarge {
                    extension,
                    condition,
                },
            ) => Ok(NewPlan::without(LoadNote::PatternTooLarge {
                text,
                extension,
                condition,
            })),
            Err(PlanFault::Memory) => Err(Memory),
        }
    }
}
