//! What the lines in front of a case laid out: a file, what a link gives, and which calls fail.

ghost use Rattle.std.specs.Prelude.{◌≡◌, false, IfOk};
ghost use Rattle.fs_ports.specs.Memory.{IsNewTape};

use crate::answer::Answer;
use crate::words::{cut, length_of};
use fs_ports::{MemFiles, MemLink};
use fs_text::{Memory, Txt};
use std::alloc::Global;

/// What a case finds.
pub struct Table {
    alloc: Global,
    front: Vec<u8>,
    back: Vec<u8>,
    file: Vec<u8>,
    later: Vec<Txt>,
    input: Vec<u8>,
    cuts: Vec<usize>,
    failed_loads: Vec<u64>,
    large_builds: Vec<u64>,
    failed_reads: Vec<u64>,
    failed_writes: Vec<u64>,
}

impl Drop for Table {
    fn drop(self) {
        let Table {
            alloc: _alloc,
            front: _front,
            back: _back,
            file: _file,
            later: _later,
            input: _input,
            cuts: _cuts,
            failed_loads: _failed_loads,
            large_builds: _large_builds,
            failed_reads: _failed_reads,
            failed_writes: _failed_writes,
        } = self;
    }
}

impl Table {
    pub fn new(alloc: Global) -> Table {
        Table {
            alloc,
            front: Vec::new(alloc),
            back: Vec::new(alloc),
            file: Vec::new(alloc),
            later: Vec::new(alloc),
            input: Vec::new(alloc),
            cuts: Vec::new(alloc),
            failed_loads: Vec::new(alloc),
            large_builds: Vec::new(alloc),
            failed_reads: Vec::new(alloc),
            failed_writes: Vec::new(alloc),
        }
    }

    /// Takes what a line lays out, and says whether it lays out something.
    ///
    /// `file TEXT` is the document `f`, to which `more TEXT` and `times COUNT TEXT` add, and `between TEXT` is one that
    /// stands between a `front TEXT` and a `back TEXT`. `later TEXT` is what `f` has when it is loaded the next time.
    /// `input TEXT`, `inputs COUNT TEXT` and `command TEXT` add to what the link gives, the last one with the empty
    /// line that ends a command, and `again COUNT PLACE` repeats so often what stands from a place on. `cuts`,
    /// `failed-loads`, `large-builds`, `failed-reads` and `failed-writes` have numbers.
    pub fn takes(&mut self, verb: &str, rest: &str, answer: &mut Answer) -> bool {
        match verb {
            "command" => self.take_command(rest, answer),
            "later" => self.take_later(rest, answer),
            "more" => answer.add_bytes(rest, &mut self.file),
            "times" => answer.add_counted(rest, &mut self.file),
            "input" => answer.add_bytes(rest, &mut self.input),
            "inputs" => answer.add_counted(rest, &mut self.input),
            "again" => self.take_again(rest, answer),
            "between" => self.take_between(rest, answer),
            "cuts" => answer.add_places(rest, &mut self.cuts),
            _ => return self.takes_whole(verb, rest, answer),
        }
        true
    }

    // Takes what is laid out anew.
    fn takes_whole(&mut self, verb: &str, rest: &str, answer: &mut Answer) -> bool {
        let Some(text) = self.text_at(verb) else {
            return self.takes_numbers(verb, rest, answer);
        };
        text.clear();
        answer.add_bytes(rest, text);
        true
    }

    // Takes the numbers of calls.
    fn takes_numbers(&mut self, verb: &str, rest: &str, answer: &mut Answer) -> bool {
        let Some(numbers) = self.numbers_at(verb) else {
            return false;
        };
        answer.add_numbers(rest, numbers);
        true
    }

    // The text that a line lays out, if it does.
    fn text_at(&mut self, verb: &str) -> Option<&mut Vec<u8>> {
        match verb {
            "file" => Some(&mut self.file),
            "front" => Some(&mut self.front),
            "back" => Some(&mut self.back),
            _ => None,
        }
    }

    // The numbers that a line lays out, if it does.
    fn numbers_at(&mut self, verb: &str) -> Option<&mut Vec<u64>> {
        match verb {
            "failed-loads" => Some(&mut self.failed_loads),
            "large-builds" => Some(&mut self.large_builds),
            "failed-reads" => Some(&mut self.failed_reads),
            "failed-writes" => Some(&mut self.failed_writes),
            _ => None,
        }
    }

    // Has the file give this when it is loaded the next time.
    fn take_later(&mut self, text: &str, answer: &mut Answer) {
        let bytes = answer.bytes_of(text);
        let made = Txt::from_vec(bytes);
        if let Some(text) = answer.made(made) {
            let done = self.add_later(text);
            answer.note(done);
        }
    }

    fn add_later(&mut self, text: Txt) -> Result<(), Memory> {
        Ok(self.later.push(text)?)
    }

    // Has the link give a command, with the empty line that ends it.
    fn take_command(&mut self, text: &str, answer: &mut Answer) {
        answer.add_bytes(text, &mut self.input);
        answer.add_bytes("%0A%0A", &mut self.input);
    }

    // Has the link give so many times more what it gives from a place on.
    fn take_again(&mut self, rest: &str, answer: &mut Answer) {
        let (count, place) = cut(rest);
        let tail = self.input.get(length_of(place)..).unwrap_or_default();
        let mut more = Vec::new(self.alloc);
        answer.add_times(tail, length_of(count), &mut more);
        answer.add_times(&more, 1, &mut self.input);
    }

    // Lays out the document of the front, a text and the back.
    fn take_between(&mut self, text: &str, answer: &mut Answer) {
        self.file.clear();
        answer.add_times(&self.front, 1, &mut self.file);
        answer.add_bytes(text, &mut self.file);
        answer.add_times(&self.back, 1, &mut self.file);
    }

    /// Forgets all but the file, its front and its back.
    pub fn clear(&mut self) {
        self.later.clear();
        self.input.clear();
        self.cuts.clear();
        self.failed_loads.clear();
        self.large_builds.clear();
        self.failed_reads.clear();
        self.failed_writes.clear();
    }

    /// The document `f`.
    pub fn file(&self) -> &[u8] {
        &self.file
    }

    /// The document `f`, to which more may be added.
    pub fn file_mut(&mut self) -> &mut Vec<u8> {
        &mut self.file
    }

    /// Files among which is `f`.
    pub fn files(&self) -> Result<MemFiles, Memory> {
        self.files_of(&self.file)
    }

    /// Files among which is `f`, of whose document so many bytes are left.
    pub fn cut_files(&self, len: usize) -> Result<MemFiles, Memory> {
        self.files_of(self.file.get(..len).unwrap_or(&self.file))
    }

    /// Files among which is `f` as it is behind its first load, and its name. Where nothing else was laid out for that,
    /// it has the same document again.
    pub fn files_again(&self) -> Result<(MemFiles, Txt), Memory> {
        let mut held = Vec::new(self.alloc);
        if self.later.is_empty() {
            self.hold(&self.file, &mut held)?;
        }
        self.hold_later(&mut held)?;
        let files = MemFiles::new(self.alloc, &held, &self.failed_loads, &self.large_builds)?;
        Ok((files, Txt::of(self.alloc, b"f")?))
    }

    // Files among which is `f` with these bytes, and then with those that were laid out for later loads.
    fn files_of(&self, bytes: &[u8]) -> Result<MemFiles, Memory> {
        let mut held = Vec::new(self.alloc);
        self.hold(bytes, &mut held)?;
        self.hold_later(&mut held)?;
        MemFiles::new(self.alloc, &held, &self.failed_loads, &self.large_builds)
    }

    // Adds the documents of later loads.
    fn hold_later(&self, held: &mut Vec<(Txt, Txt)>) -> Result<(), Memory> {
        for text in &self.later {
            self.hold(text.as_bytes(), held)?;
        }
        Ok(())
    }

    // Adds the document of these bytes.
    fn hold(&self, bytes: &[u8], held: &mut Vec<(Txt, Txt)>) -> Result<(), Memory> {
        let name = Txt::of(self.alloc, b"f")?;
        Ok(held.push((name, Txt::of(self.alloc, bytes)?))?)
    }

    /// A link that gives the input, and takes so many bytes. Its reads do not have to be tried again.
    pub fn link(&self, room: usize) -> Result<MemLink, Memory>
        ensures new { IfOk result (λ link. IsNewTape link) }
        ensures held { IfOk result (λ link. link.is_held ≡ false) }
    {
        self.failing_link(&self.failed_reads, &self.failed_writes, room)
    }

    /// The same link, of which these reads and writes fail, and no others.
    pub fn failing_link(
        &self,
        failed_reads: &[u64],
        failed_writes: &[u64],
        room: usize,
    ) -> Result<MemLink, Memory>
        ensures new { IfOk result (λ link. IsNewTape link) }
        ensures held { IfOk result (λ link. link.is_held ≡ false) }
    {
        MemLink::new(
            self.alloc,
            &self.input,
            &self.cuts,
            failed_reads,
            failed_writes,
            room,
        )
    }
}
