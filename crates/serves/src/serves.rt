//! The desk at which cases of the server are answered.

ghost use Rattle.std.specs.Prelude.{All, IfOk};
ghost use Rattle.fs_ports.specs.Memory.{IsNewTape};

use crate::telling::{How, tell_served};
use case_desk::{Answer, Desk, Table, length_of, number_of};
use fs_ports::{
    Flag, HoldGates, MemDialer, MemDoor, MemLink, MemLinks, Sent, Sink, StepClock, send_all,
};
use fs_text::{Memory, Txt};
use fs_top::{is_serve, serve_with};
use std::alloc::Global;
use std::io::ErrorKind;
use std::sync::Wait;
use std::thread::Threads;

// The most that is written to a link.
const ROOM: usize = 4_000_000;

// How often a held link is asked in vain.
const TURNS: u64 = 1_000_000;

// How far the clock goes on at a nap, in microseconds.
const STEP: u64 = 1000;

/// What the lines so far laid out: a document, the links that come, those that are dialed, what fails at the door and
/// at dialers, the clock, and the gate of a slot; and how much is to be told of a server over them, where the last line
/// asked for one.
#[derive(Drop)]
pub(crate) struct Serves {
    table: Table,
    links: NewLinks,
    controllers: NewLinks,
    flags: Vec<Flag>,
    failed_accepts: Vec<u64>,
    failed_dials: Vec<u64>,
    start: u64,
    step: u64,
    is_deaf: bool,
    gates: Option<HoldGates>,
    asked: Option<How>,
}

// Links of which nothing was read or written yet.
#[derive(Drop)]
struct NewLinks {
    links: Vec<MemLink>,
    ghost new: { All IsNewTape links.items },
}

impl NewLinks {
    fn none(alloc: Global) -> NewLinks {
        NewLinks {
            links: Vec::new(alloc),
        }
    }

    fn push(&mut self, link: MemLink) -> Result<(), Memory>
        requires { IsNewTape link }
    {
        self.links.push(link)?;
        Ok(())
    }

    fn into_links(self) -> MemLinks
        ensures { All IsNewTape result }
    {
        let NewLinks { links } = self;
        MemLinks::from_vec(links)
    }
}

impl Serves {
    pub(crate) fn new(alloc: Global) -> Serves {
        Serves {
            table: Table::new(alloc),
            links: NewLinks::none(alloc),
            controllers: NewLinks::none(alloc),
            flags: Vec::new(alloc),
            failed_accepts: Vec::new(alloc),
            failed_dials: Vec::new(alloc),
            start: 0,
            step: STEP,
            is_deaf: false,
            gates: None,
            asked: None,
        }
    }

    /// Serves the links that came, where the last line asked for it, and writes what came of it.
    pub(crate) fn serve_asked<R: Threads + Wait + Sync, S: Sink>(
        &mut self,
        rt: &R,
        alloc: Global,
        out: &mut S,
    ) -> Result<(), ErrorKind> {
        let Some(how) = self.asked.take() else {
            return Ok(());
        };
        let mut answer = Answer::new(alloc);
        let done = self.serve(rt, how, &mut answer);
        answer.note(done);
        self.clear(alloc);
        match send_all(out, answer.bytes()) {
            Sent::All if !answer.is_wanting() => Ok(()),
            _ => Err(ErrorKind::WriteZero),
        }
    }

    // Forgets all but the document.
    fn clear(&mut self, alloc: Global) {
        self.table.clear();
        self.links = NewLinks::none(alloc);
        self.controllers = NewLinks::none(alloc);
        self.flags.clear();
        self.failed_accepts.clear();
        self.failed_dials.clear();
        self.start = 0;
        self.step = STEP;
        self.is_deaf = false;
        self.gates = None;
    }

    // The flag of a name: `a` is the first one.
    fn flag(&mut self, name: &str, alloc: Global) -> Result<Flag, Memory> {
        let place = usize::from(name.bytes().next().unwrap_or(b'a').saturating_sub(b'a'));
        for _ in self.flags.len()..=place {
            self.flags.push(Flag::new(alloc)?)?;
        }
        match self.flags.get(place) {
            Some(flag) => flag.twin(),
            None => Flag::new(alloc),
        }
    }

    // The link that the lines laid out, as the words behind it say.
    fn new_link(&mut self, words: &str, alloc: Global) -> Result<MemLink, Memory>
        ensures { IfOk result (λ link. IsNewTape link) }
    {
        let words = words.split_whitespace().collect::<Vec<&str>>(alloc)?;
        let link = self.table.link(ROOM)?;
        self.table.clear();
        self.held(words.as_slice(), link, alloc)
    }

    // Has a link come.
    fn take_link(&mut self, words: &str, alloc: Global) -> Result<(), Memory> {
        let link = self.new_link(words, alloc)?;
        self.links.push(link)
    }

    // Has the dialers give a link.
    fn take_controller(&mut self, words: &str, alloc: Global) -> Result<(), Memory> {
        let link = self.new_link(words, alloc)?;
        self.controllers.push(link)
    }

    // Has the hunts of a slot held, by `SLOT REACHED FLAG`; by a further one as they pass their gate the next time.
    fn take_gate(&mut self, words: &str, alloc: Global) -> Result<(), Memory> {
        let words = words.split_whitespace().collect::<Vec<&str>>(alloc)?;
        let [slot, reached, flag] = words.as_slice() else {
            return Ok(());
        };
        let slot = u16::try_from(number_of(slot)).unwrap_or(0);
        let reached = self.flag(reached, alloc)?;
        let flag = self.flag(flag, alloc)?;
        match &mut self.gates {
            Some(gates) => gates.add(reached, flag),
            None => {
                self.gates = Some(HoldGates::new(alloc, slot, reached, flag, TURNS)?);
                Ok(())
            }
        }
    }

    // The gates of a server: without one that was laid out, that of slot 0, which has no channel.
    fn gates(&mut self, alloc: Global) -> Result<HoldGates, Memory> {
        match self.gates.take() {
            Some(gates) => Ok(gates),
            None => HoldGates::new(alloc, 0, Flag::new(alloc)?, Flag::new(alloc)?, 0),
        }
    }

    // A link that `hold FROM FLAG` holds, in front of what it raises. Nobody raises the flag `never`.
    fn held(&mut self, words: &[&str], link: MemLink, alloc: Global) -> Result<MemLink, Memory>
        requires { IsNewTape link }
        ensures { IfOk result (λ link. IsNewTape link) }
    {
        match words {
            ["hold", from, "never", words @ ..] => {
                let link = link.held(length_of(from), Flag::new(alloc)?, u64::MAX);
                self.raising(words, link, alloc)
            }
            ["hold", from, flag, words @ ..] => {
                let link = link.held(length_of(from), self.flag(flag, alloc)?, TURNS);
                self.raising(words, link, alloc)
            }
            words => self.raising(words, link, alloc),
        }
    }

    // A link that raises a flag by `raise AT FLAG`.
    fn raising(&mut self, words: &[&str], link: MemLink, alloc: Global) -> Result<MemLink, Memory>
        requires { IsNewTape link }
        ensures { IfOk result (λ link. IsNewTape link) }
    {
        match words {
            ["raise", at, flag] => Ok(link.raises(length_of(at), self.flag(flag, alloc)?)),
            _ => Ok(link),
        }
    }

    // Serves the links that came, and tells what came of it.
    fn serve<R: Threads + Wait + Sync>(
        &mut self,
        rt: &R,
        how: How,
        answer: &mut Answer,
    ) -> Result<(), Memory> {
        let alloc = answer.alloc();
        let mut words = Vec::new(alloc);
        words.push(Txt::of(alloc, b"serve")?)?;
        words.push(Txt::of(alloc, b"f")?)?;
        if !is_serve(&words) {
            return Ok(());
        }
        let mut files = self.table.files()?;
        let links = std::mem::replace(&mut self.links, NewLinks::none(alloc)).into_links();
        let controllers = std::mem::replace(
            &mut self.controllers,
            NewLinks::none(alloc),
        ).into_links();
        let mut door = MemDoor::new(alloc, links, &self.failed_accepts, self.is_deaf)?;
        let dialer = MemDialer::new(alloc, controllers, &self.failed_dials)?;
        let mut err = MemLink::new(alloc, &[], &[], &[], &[], ROOM)?;
        let clock = StepClock::new(self.start, self.step);
        let gates = self.gates(alloc)?;
        let served = serve_with(
            rt, alloc, &words, &mut files, &mut door, &dialer, &clock, &mut err, &gates,
        );
        if gates.used_up() {
            answer.line("the hunt went on without its flag");
        }
        answer.told(format_args!("status {}", served.status.code));
        answer.lines(err.written());
        tell_served(&served, self.table.file(), how, answer)
    }

    // Takes a line that lays out something, and says whether it does.
    fn lays_out(&mut self, verb: &str, rest: &str, answer: &mut Answer) -> bool {
        match verb {
            "link" => {
                let done = self.take_link(rest, answer.alloc());
                answer.note(done);
            }
            "controller" => {
                let done = self.take_controller(rest, answer.alloc());
                answer.note(done);
            }
            "gate" => {
                let done = self.take_gate(rest, answer.alloc());
                answer.note(done);
            }
            "failed-dials" => answer.add_numbers(rest, &mut self.failed_dials),
            "failed-accepts" => answer.add_numbers(rest, &mut self.failed_accepts),
            "start" => self.start = number_of(rest),
            "step" => self.step = number_of(rest),
            "deaf" => self.is_deaf = true,
            _ => return self.table.takes(verb, rest, answer),
        }
        true
    }
}

impl Desk for Serves {
    fn takes(&mut self, verb: &str, rest: &str, answer: &mut Answer) {
        if self.lays_out(verb, rest, answer) {
            return;
        }
        self.asked = How::asked_by(verb);
        if self.asked.is_none() {
            answer.line("no case");
            self.clear(answer.alloc());
        }
    }
}
