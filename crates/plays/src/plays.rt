//! The desk at which cases of runs and plays are answered.

use crate::each::tell_each;
use crate::entries::tell_entries;
use crate::played::{Told, tell_play};
use crate::runs::tell_run;
use case_desk::{Answer, Desk, Table};
use std::alloc::Global;

/// What the lines so far laid out.
#[derive(Drop)]
pub(crate) struct Plays {
    table: Table,
}

impl Plays {
    pub(crate) fn new(alloc: Global) -> Plays {
        Plays {
            table: Table::new(alloc),
        }
    }
}

impl Desk for Plays {
    fn takes(&mut self, verb: &str, rest: &str, answer: &mut Answer) {
        if !self.table.takes(verb, rest, answer) {
            tell(&self.table, verb, rest, answer);
            self.table.clear();
        }
    }
}

// Answers a case that finds what is laid out.
fn tell(table: &Table, verb: &str, rest: &str, answer: &mut Answer) {
    match verb {
        "run" => tell_run(table, rest, false, answer),
        "measure" => tell_run(table, rest, true, answer),
        "each" => tell_each(table, rest, answer),
        "play" => tell_play(table, Told::All, answer),
        "count" => tell_play(table, Told::Counts, answer),
        "bridging" => tell_play(table, Told::Bridging, answer),
        "heard" => tell_play(table, Told::Heard, answer),
        "posted" => tell_play(table, Told::Posted, answer),
        "entries" => tell_entries(table, rest, answer),
        _ => answer.line("no case"),
    }
}
