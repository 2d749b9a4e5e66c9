//! Variables within their limits, and texts that name them.

use case_desk::{Answer, cut, length_of, number_of};
use fs_text::{Memory, Txt};
use fs_vars::{Bounds, Profile, Refused, Scope, Vars, expand};
use std::alloc::Global;

/// Variables, and the profile and the globals behind them, in which the names of a text are looked for.
pub(crate) struct Variables {
    vars: Vars,
    globals: Vars,
    profile: Profile,
}

impl Drop for Variables {
    fn drop(self) {
        let Variables {
            vars: _vars,
            globals: _globals,
            profile: _profile,
        } = self;
    }
}

impl Variables {
    pub(crate) fn new(alloc: Global) -> Result<Variables, Memory> {
        Ok(Variables {
            vars: Vars::new(alloc, Bounds::Channel)?,
            globals: Vars::new(alloc, Bounds::Globals)?,
            profile: Profile::empty(alloc)?,
        })
    }

    /// Answers what is asked of the variables.
    ///
    /// `channel COUNT LEN` and `globals COUNT LEN` begin with so many variables of those bounds, `0000` and on, with
    /// values of so many bytes; `new` also forgets the profile and the globals. `set NAME VALUE`, `long TIMES NAME
    /// LEN` (a name that repeats one, with a value of so many bytes), `unset NAME`, `copy NAME` (which takes the
    /// variable out of a copy) and `list` are about the variables. `global NAME VALUE` and `profile NUMBER ANI` set
    /// what stands behind them, and `expand TEXT` and `length TEXT` tell what a text comes to.
    pub(crate) fn tell(&mut self, rest: &str, answer: &mut Answer) {
        let (verb, rest) = cut(rest);
        match verb {
            "expand" => self.tell_expanded(rest, answer),
            "length" => self.tell_length(rest, answer),
            "set" => tell_set(&mut self.vars, rest, answer),
            "global" => tell_set(&mut self.globals, rest, answer),
            "long" => tell_long(&mut self.vars, rest, answer),
            "copy" => tell_copy(&self.vars, rest, answer),
            "list" => tell_vars(&self.vars, answer),
            "unset" => self.vars.unset(&answer.bytes_of(rest)),
            _ => self.begin(verb, rest, answer),
        }
    }

    // Begins anew, or sets the profile.
    fn begin(&mut self, verb: &str, rest: &str, answer: &mut Answer) {
        match verb {
            "new" => self.renew(answer),
            "channel" => fill(&mut self.vars, Bounds::Channel, rest, answer),
            "globals" => fill(&mut self.vars, Bounds::Globals, rest, answer),
            "profile" => set_profile(&mut self.profile, rest, answer),
            "memory" => answer.told(Refused::Memory),
            _ => answer.line("no case"),
        }
    }

    fn renew(&mut self, answer: &mut Answer) {
        match Variables::new(answer.alloc()) {
            Ok(new) => *self = new,
            Err(memory) => answer.want(memory),
        }
    }

    fn expanded(&self, text: &str, answer: &mut Answer) -> Result<Txt, Refused> {
        let text = answer.bytes_of(text);
        let scope = Scope {
            vars: &self.vars,
            profile: &self.profile,
            globals: &self.globals,
        };
        expand(answer.alloc(), &scope, &text)
    }

    fn tell_expanded(&self, text: &str, answer: &mut Answer) {
        match &self.expanded(text, answer) {
            Ok(whole) => answer.line_of(whole.as_bytes()),
            Err(refused) => answer.told(refused),
        }
    }

    fn tell_length(&self, text: &str, answer: &mut Answer) {
        match &self.expanded(text, answer) {
            Ok(whole) => answer.told(format_args!("{} bytes", whole.as_bytes().len())),
            Err(refused) => answer.told(refused),
        }
    }
}

fn set_profile(profile: &mut Profile, rest: &str, answer: &mut Answer) {
    let (number, ani) = cut(rest);
    answer.set_text(number, &mut profile.destination_number);
    answer.set_text(ani, &mut profile.ani);
}

fn tell_set(vars: &mut Vars, rest: &str, answer: &mut Answer) {
    let (name, value) = cut(rest);
    let name = answer.bytes_of(name);
    let value = answer.bytes_of(value);
    tell_done(vars.set(&name, &value), answer);
}

fn tell_long(vars: &mut Vars, rest: &str, answer: &mut Answer) {
    let (times, rest) = cut(rest);
    let (name, len) = cut(rest);
    let name = answer.repeated(name, length_of(times));
    let value = answer.repeated("v", length_of(len));
    tell_done(vars.set(&name, &value), answer);
}

fn tell_done(done: Result<bool, Memory>, answer: &mut Answer) {
    match done {
        Ok(true) => answer.line("set"),
        Ok(false) => answer.line("refused"),
        Err(memory) => answer.want(memory),
    }
}

fn tell_copy(vars: &Vars, name: &str, answer: &mut Answer) {
    let name = answer.bytes_of(name);
    if let Some(mut copy) = answer.made(vars.copy()) {
        copy.unset(&name);
        tell_vars(&copy, answer);
        tell_vars(vars, answer);
    }
}

/// Adds the variables in order, as `name=value;`.
pub(crate) fn tell_vars(vars: &Vars, answer: &mut Answer) {
    answer.begin();
    for (name, value) in vars.pairs() {
        answer.add(name);
        answer.put("=");
        answer.add(value.as_bytes());
        answer.put(";");
    }
    answer.end();
}

// Begins with so many variables with values of so many bytes.
fn fill(vars: &mut Vars, bounds: Bounds, rest: &str, answer: &mut Answer) {
    let (count, len) = cut(rest);
    let value = answer.repeated("v", length_of(len));
    if let Some(mut filled) = answer.made(Vars::new(answer.alloc(), bounds)) {
        for n in 0..number_of(count) {
            set_numbered(&mut filled, n, &value, answer);
        }
        *vars = filled;
    }
}

fn set_numbered(vars: &mut Vars, n: u64, value: &[u8], answer: &mut Answer) {
    let mut name = String::new(answer.alloc());
    let done = write!(name, "{n:04}");
    answer.note(done);
    let done = vars.set(name.as_bytes(), value);
    answer.note(done);
}
