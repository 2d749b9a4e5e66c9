//! A switch with the journal of its entries: an entry is judged and prepared, and then done.

ghost use Rattle.std.specs.Arc.{arc_value};
ghost use Rattle.std.specs.Prelude.{◌≡◌, false, [], ◌∷◌, ◌++◌, None, Some, option_map, unwrap_or, IfOk, IfErr, OnOk};
ghost use Rattle.fs_doc.specs.Limits.{IsWithin};
ghost use Rattle.fs_state.specs.declared.delta.OutboxChange.TheVariants.{Unchanged};
ghost use Rattle.fs_state.specs.Drafts.{drafted};
ghost use Rattle.fs_state.specs.Switch.{empty, HasRoomWithin};
ghost use Rattle.fs_state.specs.Waiting.{AreHeld};
ghost use Rattle.fs_machine.specs.Entries.{cost_with, is_load};
ghost use Rattle.fs_machine.specs.Step.{act_done, step, refusal_of, IsRefusedFor, ComesTo};
ghost use Rattle.fs_machine.specs.Step.{is_full_for as full_for, full_journal as full_refusal};
ghost use Rattle.fs_machine.specs.Runs as spec;
ghost use Rattle.fs_machine.specs.Sound.{IsSound};

use crate::acts::do_act;
use crate::entry::{Act, Entry};
use crate::journal::Journal;
use crate::refusal::Refusal;
use crate::refused::refused_act;
use crate::reply::Reply;
use crate::touches::Touches;
use fs_doc::Config;
use fs_event::Ring;
use fs_plan::Dialplan;
use fs_seats::Boxed;
use fs_state::{Blank, Core, Delta, Draft, Seen};
use fs_text::{Memory, Txt};
use std::alloc::Global;
use std::marker::Model;
use std::sync::Arc;

/// A switch with the journal of its entries.
///
/// A contract sees what it was configured by, its journal, for how many entries there is room, and the ring of the
/// events that wait for connections; its state is what the entries make of the empty switch.
pub struct Machine {
    // What it started from.
    pub(crate) config: Arc<Config>,
    pub(crate) core: Core,
    pub(crate) dialplan: Arc<Dialplan>,
    pub(crate) journal: Journal,
    // What the last entry was noted on, for the next one.
    blank: Option<Blank>,
    // How often what the routes of channels rest on was changed.
    pub(crate) touches: Touches,
}

impl Drop for Machine {
    fn drop(self) {
        let Machine {
            config: _config,
            core: _core,
            dialplan: _dialplan,
            journal: _journal,
            blank: _blank,
            touches: _touches,
        } = self;
    }
}

/// What an entry is to change, once it was prepared.
pub struct Change {
    /// The entry.
    pub entry: Entry,
    /// What it changes of the switch.
    pub delta: Boxed<Delta>,
    /// What it comes to.
    pub reply: Reply,
    /// The dialplan that comes into force by it, if one does.
    pub dialplan: Option<Arc<Dialplan>>,
}

impl Drop for Change {
    fn drop(self) {
        let Change {
            entry: _entry,
            delta: _delta,
            reply: _reply,
            dialplan: _dialplan,
        } = self;
    }
}

impl Change {
    /// The entry, what it changes, the reply to it, and the dialplan that comes into force by it.
    fn into_parts(self) -> (Entry, Boxed<Delta>, Reply, Option<Arc<Dialplan>>)
        ensures { result ≡ (self.entry, self.delta, self.reply, self.dialplan) }
    {
        let Change {
            entry,
            delta,
            reply,
            dialplan,
        } = self;
        (entry, delta, reply, dialplan)
    }
}

impl Model for Machine {
    ghost use Rattle.std.specs.Arc.{arc_value};
    ghost use Rattle.std.specs.Prelude.{◌≡◌};
    ghost use Rattle.fs_doc.specs.Limits.{IsWithin};
    ghost use Rattle.fs_machine.specs.Routes.{AreKept};
    ghost use Rattle.fs_machine.specs.Runs.{View, StandsFor};

    ghost Value = { View };

    ghost view = { λ m. record {
      config = arc_value m.config;
      journal = m.journal.entries;
      spare = m.journal.spare;
      ring = m.core.ring;
    } };

    ghost invariant = { λ m. StandsFor (arc_value m.config) m.core.switch m.journal.entries
        × (m.core.switch.settings ≡ (arc_value m.config).settings)
        × (arc_value m.dialplan ≡ m.core.switch.contexts)
        × IsWithin (arc_value m.config)
        × AreKept (arc_value m.config) m.journal.entries m.touches };
}

impl Machine {
    /// A switch to which nothing has happened, with the dialplan that was built from its configuration.
    pub fn new(alloc: Global, config: Config, dialplan: Dialplan) -> Result<Machine, Memory>
        requires { dialplan ≡ config.contexts }
        ensures config { IfOk result (λ m. m.config ≡ config) }
        ensures journal { IfOk result (λ m. m.journal ≡ []) }
    {
        config.within();
        let config = Arc::new(alloc, config)?;
        let dialplan = Arc::new(alloc, dialplan)?;
        let core = Core::new(alloc, config.clone()?)?;
        Ok(Machine {
            touches: Touches::none(alloc, core.slots())?,
            core,
            config,
            dialplan,
            journal: Journal::new(alloc),
            blank: None,
        })
    }

    /// What holds of the state of every machine, and of what it was configured by. It does nothing, and stands for
    /// its contract.
    pub fn sound(&self)
        ensures state { IsSound (spec.state_of self.now) }
        ensures config { IsWithin self.now.config }
        ensures run { spec.IsRunFrom (empty self.now.config) self.now.journal }
    {
        let _journal = &self.journal;
    }

    /// The journal of its entries.
    pub fn journal(&self) -> &Journal
        ensures { result.now.entries ≡ self.now.journal }
    {
        &self.journal
    }

    /// The events that wait for connections: those alone that still stand in an outbox of its state, each once, with as
    /// many readers as outboxes it stands in.
    pub fn ring(&self) -> &Ring<Txt>
        ensures ring { result.now ≡ self.now.ring }
        ensures held { AreHeld (spec.state_of self.now).outboxes result.now.pairs }
    {
        self.core.ring()
    }

    /// The journal of its entries alone.
    pub fn into_journal(self) -> Journal
        ensures { result.entries ≡ self.journal }
    {
        let Machine {
            config: _config,
            core: _core,
            dialplan: _dialplan,
            journal,
            blank: _blank,
            touches: _touches,
        } = self;
        journal
    }

    /// Judges an entry that notes no load, and prepares what it changes. All memory is taken here; nothing changes but
    /// the room.
    pub fn prepare(&mut self, asked: &Entry) -> Result<Change, Refusal>
        requires { is_load asked.now.act ≡ false }
        ensures same { spec.IsSame self.old self.new }
        ensures refused { IfErr result (IsRefusedFor (spec.state_of self.old) asked.entry.now) }
        ensures free { OnOk result (HasRoomWithin self.old.config.settings.journal_limit (spec.state_of self.old)) }
        ensures prepared { IfOk result (spec.Changes (spec.state_of self.old) asked.entry.now) }
        ensures room { IfOk result (λ change. spec.HasRoomFor self.new change.delta) }
    {
        judge(&self.core, asked)?;
        self.journal.make_room()?;
        let blank = self.take_blank()?;
        let change = prepare_entry(&self.core, blank, &self.dialplan, asked)?;
        self.core.make_room(&change.delta)?;
        Ok(change)
    }

    /// What the entry in hand is noted on.
    pub(crate) fn take_blank(&mut self) -> Result<Blank, Memory>
        ensures same { spec.IsSame self.old self.new }
        ensures room { self.new.spare ≡ self.old.spare }
    {
        match self.blank.take() {
            Some(blank) => Ok(blank),
            None => Blank::new(self.core.alloc()),
        }
    }

    /// Does what was prepared. It takes no memory.
    pub fn apply(&mut self, change: Change) -> Reply
        requires prepared { spec.IsPrepared (spec.state_of self.old) change.entry change.delta change.reply }
        requires contexts { spec.BringsContexts (spec.state_of self.old) change }
        requires room { spec.HasRoomFor self.old change.delta }
        ensures config { self.new.config ≡ self.old.config }
        ensures journal { self.new.journal ≡ self.old.journal ++ change.entry ∷ [] }
        ensures reply { result ≡ (step (spec.state_of self.old) change.entry).reply }
        ensures cost { (spec.state_of self.new).cost ≡ cost_with change.entry.act (spec.state_of self.old) }
    {
        let (entry, delta, reply, dialplan) = change.into_parts();
        self.touches.note(&self.core, &delta);
        let blank = self.core.apply(delta, entry.act.cost());
        self.blank = Some(blank);
        self.journal.add(entry);
        put_in(&mut self.dialplan, dialplan);
        reply
    }

    /// Enters an entry that notes no load: prepares it, and does it.
    pub fn step(&mut self, entry: &Entry) -> Result<Reply, Refusal>
        requires { is_load entry.now.act ≡ false }
        ensures refused { IfErr result (λ r. spec.IsSame self.old self.new) }
        ensures cause { IfErr result (IsRefusedFor (spec.state_of self.old) entry.entry.now) }
        ensures config { self.new.config ≡ self.old.config }
        ensures journal { OnOk result (self.new.journal ≡ self.old.journal ++ entry.entry.now ∷ []) }
        ensures reply { IfOk result (λ reply. reply ≡ (step (spec.state_of self.old) entry.entry.now).reply) }
        ensures defined { OnOk result (refusal_of (spec.state_of self.old) entry.entry.now ≡ None) }
        ensures free { OnOk result (HasRoomWithin self.old.config.settings.journal_limit (spec.state_of self.old)) }
        ensures cost { OnOk result
            ((spec.state_of self.new).cost ≡ cost_with entry.entry.now.act (spec.state_of self.old)) }
    {
        let change = self.prepare(entry)?;
        Ok(self.apply(change))
    }
}

// Puts a dialplan in the place of another one, if there is one.
fn put_in(place: &mut Arc<Dialplan>, dialplan: Option<Arc<Dialplan>>)
    ensures { arc_value place.new ≡ unwrap_or (option_map arc_value dialplan) (arc_value place.old) }
{
    if let Some(dialplan) = dialplan {
        *place = dialplan;
    }
}

// Prepares what an entry changes of a state by which it is not refused.
#[tactic(auto, unfolding(crate::specs::Step::step))]
fn prepare_entry(
    core: &Core,
    blank: Blank,
    dialplan: &Dialplan,
    asked: &Entry,
) -> Result<Change, Memory>
    requires other { is_load asked.now.act ≡ false }
    requires dialplan { dialplan.now ≡ core.now.switch.contexts }
    requires defined { refusal_of core.now.switch asked.now ≡ None }
    ensures { IfOk result (spec.Changes core.now.switch asked.entry.now) }
{
    let mut draft = Draft::new(core, blank);
    draft.advance(asked.moment);
    let (entry, reply) = enter(&mut draft, dialplan, asked)?;
    draft.post()?;
    let delta = draft.finish()?;
    Ok(Change {
        entry,
        delta,
        reply,
        dialplan: None,
    })
}

/// Judges an entry over a state: whether it is refused, and why.
#[tactic(auto, unfolding(crate::specs::Step::refusal_of))]
pub(crate) fn judge(core: &Core, asked: &Entry) -> Result<(), Refusal>
    ensures refused { IfErr result (λ refusal. refusal_of core.now.switch asked.now ≡ Some refusal) }
    ensures free { OnOk result (HasRoomWithin core.now.switch.settings.journal_limit core.now.switch) }
    ensures defined { OnOk result (refusal_of core.now.switch asked.now ≡ None) }
{
    if is_full_for(core, &asked.act) {
        return Err(full_journal(core));
    }
    match refused_act(&Seen::of(core, asked.moment), &asked.act) {
        Some(refusal) => Err(refusal),
        None => Ok(()),
    }
}

/// That the journal is full.
pub(crate) fn full_journal(core: &Core) -> Refusal
    ensures { result ≡ full_refusal core.now.switch }
{
    Refusal::JournalFull {
        cost: core.cost(),
        limit: core.settings().journal_limit,
    }
}

// Whether the journal has no room for the largest entry that there may be instead of one of this act.
fn is_full_for(core: &Core, act: &Act) -> bool
    ensures exact { result ≡ full_for act.now core.now.switch }
    ensures free { result ≡ false → HasRoomWithin core.now.switch.settings.journal_limit core.now.switch }
{
    if act.is_load() {
        core.is_full_for_load()
    } else {
        core.is_full()
    }
}

// Does an entry that is not refused to a draft, and copies it.
fn enter(
    draft: &mut Draft<'_>,
    dialplan: &Dialplan,
    asked: &Entry,
) -> Result<(Entry, Reply), Memory>
    requires other { is_load asked.now.act ≡ false }
    requires outbox { draft.old.delta.outbox ≡ Unchanged }
    requires dialplan { dialplan.now ≡ (drafted draft.old).contexts }
    ensures base { draft.new.base ≡ draft.old.base }
    ensures entry { IfOk result (λ done. done.0 ≡ asked.entry.now) }
    ensures ok { IfOk result
        (λ done. ComesTo (act_done asked.entry.now.act (drafted draft.old)) (drafted draft.new) done.1) }
{
    let reply = do_act(draft, dialplan, &asked.act)?;
    Ok((asked.copy()?, reply))
}
