//! The desk at which cases of values are answered.

use crate::applications::tell_app;
use crate::blocks::tell_block;
use crate::bridges::tell_bridges;
use crate::channels::tell_channel;
use crate::commands::{tell_api, tell_expanded};
use crate::dials::{tell_dial, tell_plans, tell_timeout};
use crate::disk::{tell_build, tell_load};
use crate::documents::{add_attributes, tell_config};
use crate::events::tell_event;
use crate::frames::tell_frames;
use crate::hunts::Hunts;
use crate::legs::{Legs, tell_endpoint};
use crate::links::{tell_reads, tell_sends, tell_writes};
use crate::names::tell_text;
use crate::subscriptions::tell_subs;
use crate::variables::Variables;
use case_desk::{Answer, Desk, Table};
use fs_frame::Blocks;
use fs_ports::Files;
use fs_text::Memory;
use std::alloc::Global;

/// What the lines so far laid out.
pub(crate) struct Values<D: Files + Drop> {
    disk: D,
    table: Table,
    blocks: Blocks,
    legs: Legs,
    hunts: Hunts,
    variables: Variables,
}

impl<D: Files + Drop> Drop for Values<D> {
    fn drop(self) {
        let Values {
            disk: _disk,
            table: _table,
            blocks: _blocks,
            legs: _legs,
            hunts: _hunts,
            variables: _variables,
        } = self;
    }
}

impl<D: Files + Drop> Values<D> {
    pub(crate) fn new(alloc: Global, disk: D) -> Result<Values<D>, Memory> {
        let variables = Variables::new(alloc)?;
        Ok(Values {
            disk,
            table: Table::new(alloc),
            blocks: Blocks::new(alloc)?,
            legs: Legs::new(alloc),
            hunts: Hunts::new(),
            variables,
        })
    }
}

impl<D: Files + Drop> Desk for Values<D> {
    fn takes(&mut self, verb: &str, rest: &str, answer: &mut Answer) {
        match verb {
            "vars" => self.variables.tell(rest, answer),
            "frames" => tell_frames(&mut self.blocks, rest, answer),
            "hunt" => self.hunts.tell_hunt(rest, answer),
            "document" => self.tell_document(rest, answer),
            "config" => tell_config(self.table.file(), rest, answer),
            "attributes" => add_attributes(rest, self.table.file_mut(), answer),
            "load" => tell_load(&mut self.disk, rest, answer),
            "build" => tell_build(&mut self.disk, rest, answer),
            _ => self.takes_rest(verb, rest, answer),
        }
    }
}

impl<D: Files + Drop> Values<D> {
    // Answers what finds nothing laid out, or what clears the table behind it.
    fn takes_rest(&mut self, verb: &str, rest: &str, answer: &mut Answer) {
        if tells_value(verb, rest, answer) || self.table.takes(verb, rest, answer) {
            return;
        }
        if self.tells_found(verb, rest, answer) {
            self.table.clear();
        } else if !self.legs.tells(verb, rest, answer) {
            answer.line("no case");
        }
    }

    // Answers a case that finds what is laid out, if it is one.
    fn tells_found(&mut self, verb: &str, rest: &str, answer: &mut Answer) -> bool {
        match verb {
            "contexts" => self.hunts.build(&self.table, rest, answer),
            "reads" => tell_reads(&self.table, rest, answer),
            "writes" => tell_writes(&self.table, rest, answer),
            "sends" => tell_sends(&self.table, rest, answer),
            _ => return false,
        }
        true
    }

    // Lays a document out, and says whether it is read.
    fn tell_document(&mut self, text: &str, answer: &mut Answer) {
        let _is_taken = self.table.takes("file", text, answer);
        tell_config(self.table.file(), "", answer);
    }
}

// Answers a case of a value, if it is one.
fn tells_value(verb: &str, rest: &str, answer: &mut Answer) -> bool {
    match verb {
        "api" => tell_api(rest, answer),
        "expanded" => tell_expanded(rest, answer),
        "app" => tell_app(rest, answer),
        "block" => tell_block(rest, answer),
        "channel" => tell_channel(rest, answer),
        "endpoint" => tell_endpoint(rest, answer),
        "dial" => tell_dial(rest, answer),
        "plans" => tell_plans(rest, answer),
        "timeout" => tell_timeout(rest, answer),
        "text" => tell_text(rest, answer),
        "event" => tell_event(rest, answer),
        "subs" => tell_subs(rest, answer),
        "bridges" => tell_bridges(rest, answer),
        _ => return false,
    }
    true
}
