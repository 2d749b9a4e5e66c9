//! Files of the system, and patterns built by them.

use case_desk::Answer;
use fs_ports::{Built, Files, Load};
use fs_text::Memory;

/// Answers `load NAME` with what the load of a file gives.
pub(crate) fn tell_load<D: Files>(disk: &mut D, name: &str, answer: &mut Answer) {
    let loaded = load(disk, name, answer);
    match &loaded {
        Ok(Load::Got(bytes)) => answer.lines(bytes.as_bytes()),
        Ok(Load::Absent) => answer.line("absent"),
        Ok(Load::Failed) => answer.line("failed"),
        Err(_) => {}
    }
    answer.note(loaded);
}

fn load<D: Files>(disk: &mut D, name: &str, answer: &mut Answer) -> Result<Load, Memory> {
    let name = answer.text_of(name)?;
    disk.load(&name)
}

/// Answers `build TEXT` with whether a text is built as a pattern.
pub(crate) fn tell_build<D: Files>(disk: &mut D, text: &str, answer: &mut Answer) {
    match &disk.build(text) {
        Built::Regex(_) => answer.line("regex"),
        Built::NoReading => answer.line("no reading"),
        Built::TooLarge => answer.line("too large"),
        Built::Memory => answer.want(Memory),
    }
}
