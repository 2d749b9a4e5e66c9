//! Answers cases of the server, a line of its input each: `link hold 54 a`, `serve`. It prints each line as it is, and
//! behind a case its answer, indented.
#![tactic(auto)]

mod again;
mod replay;
mod serves;
mod telling;

use case_desk::answer_line;
use fs_ports::Stdio;
use serves::Serves;
use std::io;

fn main(rt: HostRuntime) -> io::Result<()> {
    let alloc = rt.alloc();
    let mut out = Stdio::new(io::empty(), rt.stdout());
    let mut desk = Serves::new(alloc);
    for line in rt.lines(alloc) {
        answer_line(alloc, &mut desk, line?.as_str(), &mut out)?;
        desk.serve_asked(&rt, alloc, &mut out)?;
    }
    Ok(())
}
