//! The program `fsw`: it makes the real files, link, door, dialer, clock and error output, runs the words or serves
//! whoever connects, and ends with the status.
#![tactic(auto)]

ghost use Rattle.std.specs.Prelude.{◌≡◌, true};
ghost use Rattle.fs_top.specs.Serving as spec;

use fs_ports::{Bells, DiskFiles, Files, RealClock, Sink, Stdio, TcpDial, TcpDoor, send_all};
use fs_text::{Memory, Txt};
use fs_top::{is_serve, run, serve};
use std::alloc::Global;
use std::env::{self, Env};
use std::io::{self, ErrorKind};
use std::net::{Net, TcpListener, TcpStream};
use std::process::ExitCode;
use std::sync::Wait;
use std::thread::Threads;
use std::time;

// Seats for the slots 0 to 256, the most that a document allows.
const SLOTS: usize = 257;

// The most links that a document allows at once.
const LINKS: usize = 16;

fn main(rt: HostRuntime) -> ExitCode {
    let alloc = rt.alloc();
    let mut err = Stdio::new(io::empty(), rt.stderr());
    let system: Result<_, _> = rt.clone();
    let (Ok(words), Ok(system)) = (words_of(&rt), system) else {
        send_all(&mut err, b"fsw: out of memory\n");
        return ExitCode::FAILURE;
    };
    let words = words.as_slice();
    let mut files = DiskFiles::new(alloc, system);
    if is_serve(words) {
        return ExitCode::from(serve_words(&rt, alloc, words, &mut files, &mut err));
    }
    let mut link = Stdio::new(rt.reader(), rt.stdout());
    ExitCode::from(run(alloc, words, &mut files, &mut link, &mut err).code)
}

// Serves at a door of the system, and gives the status.
fn serve_words<R, F: Files + Send, E: Sink>(
    rt: &R,
    alloc: Global,
    words: &[Txt],
    files: &mut F,
    err: &mut E,
) -> u8
where
    R: Net<Listener = TcpListener, Stream = TcpStream> + Threads + Wait + time::Clock + Sync,
    requires { spec.is_serve words.now ≡ true }
{
    // For whoever serves the controller of a slot there is a seat, too.
    let bells = match Bells::new(alloc, SLOTS, LINKS + SLOTS) {
        Ok(Some(bells)) => bells,
        Ok(None) => {
            send_all(err, b"fsw: door fault\n");
            return 7;
        }
        Err(Memory) => {
            send_all(err, b"fsw: out of memory\n");
            return 1;
        }
    };
    let mut door = TcpDoor::new(rt, &bells);
    let dialer = TcpDial::new(rt, &bells);
    let clock = RealClock::new(rt, &bells);
    serve(rt, alloc, words, files, &mut door, &dialer, &clock, err)
        .status
        .code
}

// The words of the command line behind the name of the program. Where one is not UTF-8 they are none, so that
// they have no form.
fn words_of(rt: &(impl Env + AllocGlobal)) -> Result<Vec<Txt>, Memory> {
    let alloc = rt.alloc();
    let mut words = Vec::new(alloc);
    match env::args(rt) {
        Ok(args) => {
            for word in args.skip(1) {
                words.push(Txt::of(alloc, word.as_bytes())?)?;
            }
        }
        Err(e) if e.kind() == ErrorKind::OutOfMemory => return Err(Memory),
        Err(_) => {}
    }
    Ok(words)
}
