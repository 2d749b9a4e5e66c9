//! The machine as a state that takes entries in turn.

ghost use Rattle.std.specs.Prelude.{◌≡◌};
ghost use Rattle.fs_machine.specs.Standing.{standing_by};
ghost use Rattle.fs_machine.specs.Runs.{state_of};

use crate::answer::Answer;
use crate::entry::{Act, Entry};
use crate::machine::Machine;
use crate::offer::Offer;
use crate::refusal::{Refusal, RouteRefusal};
use crate::reply::Reply;
use crate::routes::Plan;
use fs_book::Turned;
use fs_doc::Config;

impl Turned for Machine {
    ghost use Rattle.fs_book.specs.Numbered.{by_history_once};
    ghost use Rattle.fs_machine.specs.Turned.{Takes, Declines, Fits, fits_behind, opens, names, comes_after};
    ghost use Rattle.fs_machine.specs.Routes.{entry_of};

    type Start = Config;

    type Entry = Offer;

    type Logged = Entry;

    type Answer = Answer;

    type Refusal = RouteRefusal;

    ghost start = { λ m. m.config };

    ghost journal = { λ m. m.journal };

    ghost logged = { entry_of };

    ghost fits = { Fits };

    ghost answers = { Takes };

    ghost refuses = { Declines };

    ghost opens = { opens };

    ghost names = { names };

    ghost opens_once = { by_history_once comes_after };

    ghost fits_longer = { fits_behind };

    fn turn(&mut self, submitted: Offer) -> Result<Answer, RouteRefusal> {
        self.sound();
        let events = self.core.counts().all();
        match submitted {
            Offer::Entry(entry) => match self.step(&entry) {
                Ok(reply) => Ok(self.answer(&entry.act, reply, events)),
                Err(refusal) => Err(RouteRefusal::Step(refusal)),
            },
            Offer::Route { moment, slot, plan } => match self.apply_route(moment, slot, plan) {
                Ok(reply) => Ok(self.answer(&Act::Work { slot }, reply, events)),
                Err(refusal) => Err(refusal),
            },
            Offer::Load { moment, job, load } => match self.apply_load(moment, job, load) {
                Ok(reply) => Ok(self.answer(&Act::Job { job }, reply, events)),
                Err(refusal) => Err(RouteRefusal::Step(refusal)),
            },
        }
    }

    fn place(&self) -> u64 {
        self.place()
    }
}

impl Machine {
    // What whoever submitted an act is answered, before which so many events had happened.
    fn answer(&self, act: &Act, reply: Reply, events: u64) -> Answer
        ensures reply { result.reply ≡ reply }
        ensures standing { result.standing ≡ standing_by act.now (state_of self.now) }
    {
        Answer {
            reply,
            standing: self.standing_by(act),
            wakes: self.wakes_after(act, events),
        }
    }
}
