//! Entries of a journal are entered again.

ghost use Rattle.std.specs.Prelude.{IfOk};
ghost use Rattle.fs_machine.specs.Loading.{IsLoad};

use fs_machine::{Act, Entry, LoadNote, Machine, NewPlan, Refusal, Reply};
use fs_ports::MemFiles;
use fs_text::{Memory, Txt};
use std::alloc::Global;

/// Enters an entry of a journal again. A load is that of a file which answers as it is noted.
pub(crate) fn enter_again(
    machine: &mut Machine,
    entry: &Entry,
    alloc: Global,
) -> Result<Reply, Refusal> {
    if let Act::Loaded { job, note } = &entry.act {
        let load = load_again(alloc, note)?;
        return machine.apply_load(entry.moment, *job, load);
    }
    machine.step(entry)
}

// Loads a document that answers as it is noted; that a pattern of it is too large is not made to come again.
fn load_again(alloc: Global, note: &LoadNote) -> Result<NewPlan, Memory>
    ensures { IfOk result IsLoad }
{
    let name = Txt::of(alloc, b"f")?;
    let file = (name.copy()?, Txt::of(alloc, note.document())?);
    let mut files = match note {
        LoadNote::Absent => MemFiles::new(alloc, &[], &[], &[])?,
        LoadNote::Failed => MemFiles::new(alloc, &[], &[1], &[])?,
        _ => MemFiles::new(alloc, &[file], &[], &[])?,
    };
    NewPlan::load(alloc, &mut files, &name)
}
