//! What holds of every run. These functions do nothing: each stands for its contract.

ghost use Rattle.std.specs.Prelude.{◌≡◌, ◌≢◌, ℕ, true, false, if◌then◌else◌, List, [], ◌∷◌, ◌++◌, None, Some, is_some};
ghost use Rattle.fs_text.specs.Texts.{Text};
ghost use Rattle.fs_chan.specs.declared.chan.Chan.{Chan};
ghost use Rattle.fs_chan.specs.declared.due.Due.TheVariants.{Now};
ghost use Rattle.fs_chan.specs.Queueing.{wanted_by};
ghost use Rattle.fs_doc.specs.Limits.{IsWithin};
ghost use Rattle.fs_doc.specs.Reading.{Configuration};
ghost use Rattle.fs_state.specs.Queues.{has_caller};
ghost use Rattle.fs_state.specs.Switch.{Switch, chan_at, waiting_for, at_moment};
ghost use Rattle.fs_machine.specs.declared.due.DueActor.TheVariants as actor;
ghost use Rattle.fs_machine.specs.declared.entry.Entry.{Entry};
ghost use Rattle.fs_machine.specs.declared.entry.Act.TheVariants.{Arrive};
ghost use Rattle.fs_machine.specs.declared.reply.Reply.{Reply};
ghost use Rattle.fs_machine.specs.declared.reply.Reply.TheVariants as reply;
ghost use Rattle.fs_machine.specs.BridgeEvents.{BridgesAreTold, EndsStandBehind, EndsStandBetween};
ghost use Rattle.fs_machine.specs.BridgeEvents.{BridgesAreCounted, events_in};
ghost use Rattle.fs_machine.specs.Connections.{phase_at};
ghost use Rattle.fs_machine.specs.Due.{next_due, slot_due};
ghost use Rattle.fs_machine.specs.EventNames.{AreNamed};
ghost use Rattle.fs_machine.specs.Events.{events_by};
ghost use Rattle.fs_machine.specs.FirstEnds.{EndsAreRecorded};
ghost use Rattle.fs_machine.specs.Questions.{owes};
ghost use Rattle.fs_machine.specs.Concerns.{Concerns};
ghost use Rattle.fs_machine.specs.Step.{is_closed};
ghost use Rattle.fs_machine.specs.Laws.{IsLimited, IsRun, state_after, given_to, handed_to, until_sent};
ghost use Rattle.fs_machine.specs.Owed.{AreOwed};
ghost use Rattle.fs_machine.specs.Sound.{PartnersAgree, IdentifiersDiffer, IsSound};
ghost use Rattle.fs_machine.specs.Winners.{WinnersCanJoin};
ghost use Rattle.fs_machine.specs.Turned.{IsJournal, Answers, opens, names};
ghost use Rattle.fs_machine.specs.Carried.{HasCome, Carries, Does, Begins};
ghost use Rattle.fs_book.specs.Opened.{OwnsNumber, NoneNames, Quiet};

/// The frames that a run hands out to a connection are the first of those that it gives it, each once and in their
/// order. While the connection is open, the others wait. Once it is closed with all sent, there are no others.
pub fn hands_out_what_it_gives()
    ensures first { (config : Configuration) (entries : List Entry) (conn : ℕ) → IsLimited config
        → IsRun config entries
        → (more : List Text) × (given_to conn config entries ≡ handed_to conn config entries ++ more) }
    ensures waiting { (config : Configuration) (entries : List Entry) (conn : ℕ) → IsLimited config
        → IsRun config entries → is_closed (phase_at (state_after config entries) conn) ≡ false
        → given_to conn config entries
        ≡ handed_to conn config entries ++ waiting_for (state_after config entries) conn }
    ensures sent { (config : Configuration) (entries : List Entry) (moment conn : ℕ) → IsLimited config
        → IsRun config (until_sent entries moment conn)
        → given_to conn config (until_sent entries moment conn)
        ≡ handed_to conn config (until_sent entries moment conn) }
{}

/// Where the configuration keeps its limits, each reply that is owed has one job that owes it, and that job has a next
/// moment. So somebody has something to do, now or at some moment, while a reply is owed. Numbers are drawn by counters
/// that stand still at their last one; the journal ends long before. There is a seat for the origination of each job
/// and of each channel.
pub fn owes_to_its_jobs()
    ensures owed { (config : Configuration) (entries : List Entry) → IsWithin config → IsRun config entries
        → AreOwed (state_after config entries) }
    ensures goes_on { (config : Configuration) (entries : List Entry) → IsWithin config → IsRun config entries
        → (conn now : ℕ) → owes (state_after config entries) conn ≡ true
        → next_due now (state_after config entries) ≢ actor.Never }
{}

/// Whatever entries are run, the loopback partner of a live channel is there, is live, and names it back.
pub fn partners_agree()
    ensures { (config : Configuration) (entries : List Entry) → PartnersAgree (state_after config entries) }
{}

/// In a run none of whose entries is refused, channels in different slots have different identifiers, where the
/// configuration keeps its limits: far fewer identifiers are then drawn than there are.
pub fn identifiers_differ()
    ensures { (config : Configuration) (entries : List Entry) → IsWithin config → IsRun config entries
        → IdentifiersDiffer (state_after config entries) }
{}

/// The state behind every run is sound, where the configuration keeps its limits.
pub fn runs_are_sound()
    ensures { (config : Configuration) (entries : List Entry) → IsWithin config → IsRun config entries
        → IsSound (state_after config entries) }
{}

/// In a run none of whose entries is refused a switch that has come to its end stays so by the same entry, and a slot
/// that is empty then stays empty.
pub fn stays_stopped()
    ensures stopping { (config : Configuration) (entries more : List Entry)
        → IsRun config (entries ++ more) → is_some (state_after config entries).stopping ≡ true
        → (state_after config (entries ++ more)).stopping ≡ (state_after config entries).stopping }
    ensures empty { (config : Configuration) (entries more : List Entry) (slot : ℕ)
        → IsRun config (entries ++ more) → is_some (state_after config entries).stopping ≡ true
        → chan_at (state_after config entries) slot ≡ None
        → chan_at (state_after config (entries ++ more)) slot ≡ None }
{}

/// In every run, where the configuration keeps its limits, and at whatever moment, a channel whose origination is won
/// can be joined to the leg that has won it. An entry draws a verdict before it does anything else, so that no other
/// switch is asked.
pub fn winners_can_join()
    ensures { (config : Configuration) (entries : List Entry) (moment : ℕ) → IsWithin config → IsRun config entries
        → WinnersCanJoin (at_moment moment (state_after config entries)) }
{}

/// Each entry of a run is for each connection one of three things: its own, one of others, or the one by which it
/// comes, be it that it arrives or that it is the connection of a controller which takes hold of a channel.
pub fn concerns_each_connection()
    ensures { (config : Configuration) (entries : List Entry) (entry : Entry) (conn : ℕ) → IsLimited config
        → IsRun config (entries ++ entry ∷ []) → Concerns conn (state_after config entries) entry }
{}

/// Whatever entries are run, each event tells what its name says that it can tell.
pub fn events_are_named()
    ensures { (config : Configuration) (entries : List Entry) → AreNamed (events_in config entries) }
{}

/// Whatever entries are run, one event tells of each bridge that it begins. No event tells of the end of a bridge that
/// stands, and one of the end of each other. It stands behind the one that tells of the beginning, and in front of the
/// next that tells of the beginning of a bridge of one of its legs.
pub fn bridges_are_told()
    ensures told { (config : Configuration) (entries : List Entry)
        → BridgesAreTold (state_after config entries) (events_in config entries) }
    ensures order { (config : Configuration) (entries : List Entry) → EndsStandBehind (events_in config entries) }
    ensures between { (config : Configuration) (entries : List Entry) → EndsStandBetween (events_in config entries) }
{}

/// Whatever entries are run, there are as many CHANNEL_BRIDGE events as bridges were joined, and as many
/// CHANNEL_UNBRIDGE events as of these stand no more. So do the counts of the switch say, as far as 64 bits go.
pub fn bridges_are_counted()
    ensures { (config : Configuration) (entries : List Entry)
        → BridgesAreCounted (state_after config entries) (events_in config entries) }
{}

/// In a run none of whose entries is refused, where the configuration keeps its limits, an entry ends only bridges that
/// stood before it. It leaves both legs of each one that it tells to have ended in their slots, live or hung up, with
/// the cause of that end as their variable `bridge_hangup_cause`, and with no peer, unless it has joined them anew.
pub fn ends_are_recorded()
    ensures { (config : Configuration) (entries : List Entry) (entry : Entry) → IsWithin config
        → IsRun config (entries ++ entry ∷ [])
        → EndsAreRecorded (state_after config entries) (state_after config (entries ++ entry ∷ []))
        (events_by (state_after config entries) entry) }
{}

/// A connection that comes is told the number that its entry opens in the journal.
pub fn arrivals_are_numbered()
    ensures { (config : Configuration) (log : List Entry) (moment : ℕ) (answer : Reply)
        → Answers config log (record { moment = moment; act = Arrive }) answer
        → (number : ℕ) × (answer ≡ reply.Arrived number)
        × (opens config log (record { moment = moment; act = Arrive }) ≡ Some number) }
{}

/// A connection that has come is left as it is where a run goes on without naming it, but that it may be given frames
/// while it is open, and may be made to part; and what an entry of its own does to it.
pub fn carries_each_connection()
    ensures begins { (conn : ℕ) (config : Configuration) (log : List Entry) (mine : List ℕ) → IsJournal config log
        → OwnsNumber opens config conn log mine → NoneNames names conn log → Begins conn config log }
    ensures carries { (conn : ℕ) (config : Configuration) (old new : List Entry) → IsJournal config new
        → HasCome conn (state_after config old) → Quiet names conn old new → Carries conn config old new }
    ensures does { (conn : ℕ) (config : Configuration) (before : List Entry) (entry : Entry) (reply : Reply)
        → Answers config before entry reply → HasCome conn (state_after config before) → names entry ≡ Some conn
        → Does conn config before entry }
{}

/// A channel that waits for a caller of a queue has something to do at once where somebody waits there, and nothing by
/// itself where nobody does. So no channel that waits is passed over.
pub fn takers_are_due()
    ensures { (s : Switch) (slot : ℕ) (c : Chan) (name : Text) → chan_at s slot ≡ Some c → wanted_by c ≡ Some name
        → slot_due slot s ≡ (if has_caller name s then Some Now else None) }
{}
