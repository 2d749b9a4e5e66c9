//! Answers cases of values, a line of its input each: `api echo hi`, `document <document/>`. It prints each line as it
//! is, and behind a case its answer, indented.
#![tactic(auto)]

mod applications;
mod blocks;
mod bridges;
mod channels;
mod commands;
mod dials;
mod disk;
mod documents;
mod events;
mod frames;
mod hunts;
mod legs;
mod links;
mod names;
mod subscriptions;
mod values;
mod variables;

use case_desk::answer_line;
use fs_ports::{DiskFiles, Stdio};
use std::io::{self, ErrorKind};
use values::Values;

fn main(rt: HostRuntime) -> io::Result<()> {
    let alloc = rt.alloc();
    let mut out = Stdio::new(io::empty(), rt.stdout());
    let disk = DiskFiles::new(alloc, rt);
    let mut desk = Values::new(alloc, disk).map_err(|_| ErrorKind::OutOfMemory)?;
    for line in rt.lines(alloc) {
        answer_line(alloc, &mut desk, line?.as_str(), &mut out)?;
    }
    Ok(())
}
