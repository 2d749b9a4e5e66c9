//! Answers cases of runs and plays, a line of its input each: `run play f`, `heard`. It prints each line as it is, and
//! behind a case its answer, indented.
#![tactic(auto)]

mod again;
mod answers;
mod bridging;
mod each;
mod entries;
mod hearing;
mod played;
mod plays;
mod runs;

use case_desk::answer_line;
use fs_ports::Stdio;
use plays::Plays;
use std::io;

fn main(rt: HostRuntime) -> io::Result<()> {
    let alloc = rt.alloc();
    let mut out = Stdio::new(io::empty(), rt.stdout());
    let mut desk = Plays::new(alloc);
    for line in rt.lines(alloc) {
        answer_line(alloc, &mut desk, line?.as_str(), &mut out)?;
    }
    Ok(())
}
