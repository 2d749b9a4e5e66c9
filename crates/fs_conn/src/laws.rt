//! What holds of every play and of every conversation. These functions do nothing: each stands for its contract.

ghost use Rattle.std.specs.Prelude.{◌≡◌, ◌≢◌, ◌⊎◌, ℕ, ◌≤◌, Bool, true, false, List, [], ◌∷◌, ◌++◌, Some};
ghost use Rattle.std.specs.List.{concat};
ghost use Rattle.fs_doc.specs.Limits.{IsWithin};
ghost use Rattle.fs_doc.specs.Reading.{Configuration};
ghost use Rattle.fs_ports.specs.Counts.{raised};
ghost use Rattle.fs_ports.specs.Ports.{Input, Output};
ghost use Rattle.fs_frame.specs.Block.{fault_of};
ghost use Rattle.fs_frame.specs.Blocks.{blocks_of, rest_of};
ghost use Rattle.fs_state.specs.declared.conn.Parting.{Parting};
ghost use Rattle.fs_state.specs.declared.conn.Parting.TheVariants as parting;
ghost use Rattle.fs_state.specs.Switch.{empty};
ghost use Rattle.fs_book.specs.Opened.{Quiet};
ghost use Rattle.fs_machine.specs.declared.entry.Entry.{Entry};
ghost use Rattle.fs_machine.specs.declared.entry.Act.TheVariants.{Close};
ghost use Rattle.fs_machine.specs.declared.entry.Closing.TheVariants.{Sent};
ghost use Rattle.fs_machine.specs.declared.note.LoadNote.{LoadNote};
ghost use Rattle.fs_machine.specs.Runs.{IsRunFrom};
ghost use Rattle.fs_machine.specs.Frames.{commands_of, frames_from};
ghost use Rattle.fs_machine.specs.Turned.{IsJournal, names};
ghost use Rattle.fs_conn.specs.declared.end.End.{End};
ghost use Rattle.fs_conn.specs.declared.end.End.TheVariants as ends;
ghost use Rattle.fs_conn.specs.Play.{bytes_handed, by_room, played_as, played};
ghost use Rattle.fs_conn.specs.Steps.{is_early};
ghost use Rattle.fs_conn.specs.Ends.{EndsFor, is_by_input, HasCause};
ghost use Rattle.fs_conn.specs.Partings.{PartedAt, EndsAs};
ghost use Rattle.fs_conn.specs.Talks.{Told, ends_sent, IsCutOff, is_faultless};

/// The journal of a play is a run of the machine from the empty switch: no entry of it is refused, in particular none
/// comes where the journal is full.
pub fn plays_a_run()
    ensures { (config : Configuration) (input : List ℕ) (read_failed : Bool) (notes : List LoadNote)
        → IsRunFrom (empty config) (played config input read_failed notes).journal }
{}

/// The commands in the journal of a play are the first blocks of its input, each once and in their order. They are all
/// of its blocks where the input ended, could not be read on or went on with a bad block. Where the connection left by
/// `exit`, or by a password that was refused, that is the last of them.
pub fn enters_commands_once()
    ensures first { (config : Configuration) (input : List ℕ) (read_failed : Bool) (notes : List LoadNote)
        → (more : List (List ℕ))
        × (blocks_of input ≡ commands_of 1 (played config input read_failed notes).journal ++ more) }
    ensures all { (config : Configuration) (input : List ℕ) (read_failed : Bool) (notes : List LoadNote) (end : End)
        → IsWithin config → (played config input read_failed notes).end ≡ Some end → is_by_input end ≡ true
        → commands_of 1 (played config input read_failed notes).journal ≡ blocks_of input }
    ensures exit { (config : Configuration) (input : List ℕ) (read_failed : Bool) (notes : List LoadNote)
        → (played config input read_failed notes).end ≡ Some ends.Exit
        → EndsFor parting.Exit config.settings.password
        (commands_of 1 (played config input read_failed notes).journal) }
    ensures refused { (config : Configuration) (input : List ℕ) (read_failed : Bool) (notes : List LoadNote)
        → (played config input read_failed notes).end ≡ Some ends.AuthRefused
        → EndsFor parting.AuthRefused config.settings.password
        (commands_of 1 (played config input read_failed notes).journal) }
{}

/// A play comes to an end, and each end has its cause. So a play ends by `exit` only where that is its last command,
/// by which its connection parted; as one that was made to stop only where by an entry its connection parted, behind
/// which no command came, and which brought the end of the switch or left it without the channel that it controlled;
/// by a full journal only where no further entry is accepted behind what its journal costs, or no load, whose turn has
/// come; for want of memory only where its turn has come, there is room for it, and no note is left; and as one that
/// ran away only where somebody still has something to do at the moment of the last 100,000 entries, all of which are
/// work.
pub fn ends_for_a_cause()
    ensures ends { (config : Configuration) (input : List ℕ) (read_failed : Bool) (notes : List LoadNote)
        → (end : End) × ((played config input read_failed notes).end ≡ Some end) }
    ensures cause { (config : Configuration) (input : List ℕ) (read_failed : Bool) (notes : List LoadNote) (end : End)
        → (played config input read_failed notes).end ≡ Some end
        → HasCause end (played config input read_failed notes) (fault_of (rest_of input)) read_failed }
{}

/// The bytes that a play hands out are those of the frames that its journal gives the connection, in their order: all
/// of them, or the first of them where the journal is full, no note is left for a load, or the play ran away. The limit
/// of a journal is at most 2^30 in every configuration.
pub fn hands_out_its_frames()
    ensures first { (config : Configuration) (input : List ℕ) (read_failed : Bool) (notes : List LoadNote)
        → config.settings.journal_limit ≤ 1073741824 → (more : List ℕ)
        × (concat (frames_from 1 (empty config) (played config input read_failed notes).journal)
        ≡ bytes_handed config (played config input read_failed notes).journal ++ more) }
    ensures all { (config : Configuration) (input : List ℕ) (read_failed : Bool) (notes : List LoadNote) (end : End)
        → config.settings.journal_limit ≤ 1073741824
        → (played config input read_failed notes).end ≡ Some end → is_early end ≡ false
        → bytes_handed config (played config input read_failed notes).journal
        ≡ concat (frames_from 1 (empty config) (played config input read_failed notes).journal) }
{}

/// A play that comes to its end with its connection, and not before that by a full journal, for a load of which no note
/// is left, or since it ran away, ends its journal with the closing of that connection, of which all was sent.
pub fn closes_at_its_end()
    ensures { (config : Configuration) (input : List ℕ) (read_failed : Bool) (notes : List LoadNote) (end : End)
        → IsWithin config → (played config input read_failed notes).end ≡ Some end → is_early end ≡ false
        → (before : List Entry) × (moment : ℕ)
        × ((played config input read_failed notes).journal
        ≡ before ++ record { moment = moment; act = Close 1 Sent } ∷ []) }
{}

/// No entry that a play tries is refused but for a full journal: judged by the room in the journal alone, so that each
/// is entered until the journal is full for it, which ends all, the entries make the same play. Each configuration
/// keeps its limits.
pub fn refuses_only_when_full()
    ensures { (config : Configuration) (input : List ℕ) (read_failed : Bool) (notes : List LoadNote)
        → IsWithin config
        → played config input read_failed notes ≡ played_as by_room config input read_failed notes }
{}

/// The entry by which its connection parted decides how a conversation ends. A journal has one such entry at most. A
/// conversation whose connection was closed with all sent ended for what that entry was, and no write of it failed.
/// Where there is such an entry and no write failed, it ends so, or by a full journal, or for want of memory. Where no
/// read failed either, it does not end by one that did; and it never ends as one that ran away.
pub fn ends_as_it_parted()
    ensures once { (config : Configuration) (conn : ℕ) (log : List Entry) (why other : Parting)
        → IsJournal config log → (p : PartedAt config conn log why) → (q : PartedAt config conn log other)
        → (p.before ≡ q.before) × (p.entry ≡ q.entry) × (why ≡ other) }
    ensures sent { (config : Configuration) (conn : ℕ) (in0 : Input) (out0 : Output) (log : List Entry)
        (in1 : Input) (out1 : Output) (end : End) → Told config conn in0 out0 log in1 out1 end
        → ends_sent end ≡ true
        → (why : Parting) × PartedAt config conn log why × EndsAs why end × (out1.faults ≡ out0.faults) }
    ensures parted { (config : Configuration) (conn : ℕ) (in0 : Input) (out0 : Output) (log : List Entry)
        (in1 : Input) (out1 : Output) (end : End) (why : Parting) → Told config conn in0 out0 log in1 out1 end
        → PartedAt config conn log why → out1.faults ≢ raised out0.faults → EndsAs why end ⊎ IsCutOff end }
    ensures faultless { (config : Configuration) (conn : ℕ) (in0 : Input) (out0 : Output) (log : List Entry)
        (in1 : Input) (out1 : Output) (end : End) → Told config conn in0 out0 log in1 out1 end
        → in1.faults ≢ raised in0.faults → out1.faults ≢ raised out0.faults → is_faultless end ≡ true }
{}

/// What is told of a conversation stays true where the journal goes on without naming the connection.
pub fn stays_told()
    ensures { (config : Configuration) (conn : ℕ) (in0 : Input) (out0 : Output) (log log' : List Entry) (in1 : Input)
        (out1 : Output) (end : End) → IsJournal config log' → Quiet names conn log log'
        → Told config conn in0 out0 log in1 out1 end → Told config conn in0 out0 log' in1 out1 end }
{}
