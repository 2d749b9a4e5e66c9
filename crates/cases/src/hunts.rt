//! Dialplans that are built, and what calls get from them.

use case_desk::{Answer, Table, cut};
use fs_doc::read_config;
use fs_plan::{Dialplan, Hunt};
use fs_ports::{MemFiles, NoGate};
use fs_text::{Memory, Txt};
use fs_vars::{Bounds, Profile, Refused, Scope, Vars};
use std::alloc::Global;

// What a byte stands for, so that a line is short.
const SHORT: &[(u8, &[u8])] = &[
    (b'@', b"<extension><condition"),
    (b'+', b"</condition><condition"),
    (b';', b"</condition></extension>"),
    (b'#', b" field='destination_number' expression='"),
    (b'&', b"<action application='log' data='"),
    (b'!', b"<anti-action application='log' data='"),
    (b'~', b"<action inline='true' application='"),
    (b'*', b"'/>"),
];

/// The dialplan that was built last.
pub(crate) struct Hunts {
    plan: Option<Dialplan>,
}

impl Drop for Hunts {
    fn drop(self) {
        let Hunts { plan: _plan } = self;
    }
}

impl Hunts {
    /// No dialplan.
    pub(crate) fn new() -> Hunts {
        Hunts { plan: None }
    }

    /// Builds the dialplan of contexts in short spelling, and says why where it is refused.
    pub(crate) fn build(&mut self, table: &Table, contexts: &str, answer: &mut Answer) {
        let files = table.files();
        match files {
            Ok(mut files) => self.plan = built(&mut files, contexts, answer),
            Err(memory) => answer.want(memory),
        }
    }

    /// Answers `hunt CONTEXT NUMBER` with the actions that a call for this number gets from a context.
    pub(crate) fn tell_hunt(&self, rest: &str, answer: &mut Answer) {
        match &self.plan {
            Some(plan) => tell_actions_of(plan, rest, answer),
            None => answer.line("no dialplan"),
        }
    }
}

fn built(files: &mut MemFiles, contexts: &str, answer: &mut Answer) -> Option<Dialplan> {
    let document = document(contexts, answer);
    let Ok(config) = read_config(answer.alloc(), &document) else {
        answer.line("no document");
        return None;
    };
    match Dialplan::build(answer.alloc(), &config, files) {
        Ok(plan) => Some(plan),
        Err(fault) => {
            answer.told(fault);
            None
        }
    }
}

fn tell_actions_of(plan: &Dialplan, rest: &str, answer: &mut Answer) {
    match &hunt(plan, rest, answer) {
        Ok(hunt) => tell_actions(hunt, answer),
        Err(Refused::TooLong { len }) => answer.told(format_args!("too long {len}")),
        Err(Refused::Memory) => answer.want(Memory),
    }
}

// The document of contexts in short spelling.
fn document(contexts: &str, answer: &mut Answer) -> Vec<u8> {
    let mut text = answer.bytes_of("<document><section name='dialplan'>");
    for byte in answer.bytes_of(contexts) {
        add_byte(byte, &mut text, answer);
    }
    answer.add_bytes("</section></document>", &mut text);
    text
}

// Adds what a byte stands for.
fn add_byte(byte: u8, text: &mut Vec<u8>, answer: &mut Answer) {
    for word in SHORT {
        if word.0 == byte {
            return answer.add_times(word.1, 1, text);
        }
    }
    let done = text.push(byte);
    answer.note(done);
}

// What a call gets, whose context and number these are.
fn hunt(plan: &Dialplan, rest: &str, answer: &mut Answer) -> Result<Hunt, Refused> {
    let (context, number) = cut(rest);
    let context = answer.bytes_of(context);
    let number = answer.text_of(number)?;
    let alloc = answer.alloc();
    let vars = Vars::new(alloc, Bounds::Channel)?;
    let globals = Vars::new(alloc, Bounds::Globals)?;
    let profile = called(alloc, number)?;
    let scope = Scope {
        vars: &vars,
        profile: &profile,
        globals: &globals,
    };
    plan.hunt(alloc, &scope, &context, 0, &mut NoGate)
}

// Who calls a number.
fn called(alloc: Global, number: Txt) -> Result<Profile, Memory> {
    let mut profile = Profile::empty(alloc)?;
    profile.destination_number = number;
    Ok(profile)
}

// Adds each action with its argument, or says that there is none.
fn tell_actions(hunt: &Hunt, answer: &mut Answer) {
    if hunt.actions.is_empty() {
        answer.line("no actions");
    }
    for action in hunt.actions.iter() {
        answer.begin();
        answer.add(action.application.as_bytes());
        answer.bracket(action.argument.as_bytes());
        answer.end();
    }
}
