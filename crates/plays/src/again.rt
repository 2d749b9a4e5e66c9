//! Loads of a journal are made again.

ghost use Rattle.std.specs.Prelude.{IfOk};
ghost use Rattle.fs_machine.specs.Loading.{IsLoad};

use fs_machine::{LoadNote, NewPlan};
use fs_ports::MemFiles;
use fs_text::{Memory, Txt};
use std::alloc::Global;

/// Loads a document that answers as it is noted; that a pattern of it is too large is not made to come again.
pub(crate) fn load_again(alloc: Global, note: &LoadNote) -> Result<NewPlan, Memory>
    ensures { IfOk result IsLoad }
{
    let name = Txt::of(alloc, b"f")?;
    let file = (name.copy()?, Txt::of(alloc, note.document())?);
    let mut files = match note {
        LoadNote::Absent => MemFiles::new(alloc, &[], &[], &[])?,
        LoadNote::Failed => MemFiles::new(alloc, &[], &[1], &[])?,
        _ => MemFiles::new(alloc, &[file], &[], &[])?,
    };
    NewPlan::load(alloc, &mut files, &name)
}
