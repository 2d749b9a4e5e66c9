//! What a load does to the switch.

ghost use Rattle.std.specs.Prelude.{◌≡◌, None, ◌++◌, unwrap_or, option_map, IfOk};
ghost use Rattle.std.specs.Arc.{arc_value};
ghost use Rattle.fs_state.specs.Drafts.{drafted, Brings};
ghost use Rattle.fs_machine.specs.Done.{ComesTo};
ghost use Rattle.fs_machine.specs.Loading as spec;
ghost use Rattle.fs_machine.specs.Originations.{set_all};

use crate::due::is_loading;
use crate::note::LoadNote;
use crate::owing::{Giver, begin_job, end_job};
use crate::texts::says;
use fs_doc::{Config, DocFault};
use fs_plan::Dialplan;
use fs_state::{Draft, JobWork};
use fs_text::{Memory, Txt, decimal};
use fs_vars::Vars;
use std::alloc::Global;
use std::sync::Arc;

/// What a command that asks for a load and that load cost at most.
const RELOAD_COST: u64 = 1_114_241;

// ---- the command

/// Lets the file be read again that the switch was configured by: the answer comes once a load of it is noted.
#[tactic(auto, unfolding(crate::specs::Texts::too_many_jobs, crate::specs::Loading::journal_limit_text))]
pub(crate) fn reload(draft: &mut Draft<'_>, giver: &Giver) -> Result<Option<Txt>, Memory>
    ensures base { draft.new.base ≡ draft.old.base }
    ensures done { IfOk result (ComesTo (spec.reload_begun giver.now (drafted draft.old)) (drafted draft.new)) }
{
    if draft.is_full_of_jobs() {
        return says(draft.alloc(), b"-ERR too many jobs\n");
    }
    if draft.passes_limit(RELOAD_COST) {
        return says(draft.alloc(), b"-ERR journal limit\n");
    }
    begin_job(draft, giver, JobWork::Load)?;
    Ok(None)
}

// ---- the load

/// What came of a load: its answer, and the dialplan that comes into force by it, if one does.
#[derive(Drop)]
pub(crate) struct Outcome {
    pub(crate) answer: Txt,
    pub(crate) dialplan: Option<Arc<Dialplan>>,
}

impl Outcome {
    // An answer, where everything stays as it is.
    fn of(answer: Txt) -> Outcome
        ensures { result ≡ record { answer = answer; dialplan = None } }
    {
        Outcome {
            answer,
            dialplan: None,
        }
    }
}

/// Notes a load for the job of a number, and gives the dialplan that comes into force by it, if one does: the job ends
/// with the answer of the load.
#[tactic(auto, unfolding(crate::specs::Loading::after_load))]
pub(crate) fn note_load(
    draft: &mut Draft<'_>,
    number: u64,
    note: &LoadNote,
    built: Option<(Config, Dialplan)>,
    fault: Option<DocFault>,
) -> Result<Option<Arc<Dialplan>>, Memory>
    requires { spec.IsLoadOf note.now built fault }
    ensures draft { Brings result draft.old draft.new (spec.after_load note.now number (drafted draft.old)) }
    ensures dialplan { IfOk result (λ dialplan.
        unwrap_or (option_map arc_value dialplan) (drafted draft.old).contexts ≡ (drafted draft.new).contexts) }
{
    let Some(job) = draft.job(number) else {
        return Ok(None);
    };
    if !is_loading(&job.work) {
        return Ok(None);
    }
    let asker = job.asker.copy()?;
    let outcome = come_to(draft, note, built, fault)?;
    end_job(draft, number, &asker, outcome.answer.as_bytes())?;
    Ok(outcome.dialplan)
}

// What comes of a load.
#[tactic(auto, unfolding(crate::specs::Loading::load_outcome, crate::specs::Loading::unreadable_text))]
fn come_to(
    draft: &mut Draft<'_>,
    note: &LoadNote,
    built: Option<(Config, Dialplan)>,
    fault: Option<DocFault>,
) -> Result<Outcome, Memory>
    requires { spec.IsLoadOf note.now built fault }
    ensures base { draft.new.base ≡ draft.old.base }
    ensures done { IfOk result (λ outcome. spec.load_outcome note.now (drafted draft.old)
        ≡ record { state = drafted draft.new; answer = outcome.answer }) }
    ensures dialplan { IfOk result (λ outcome.
        unwrap_or (option_map arc_value outcome.dialplan) (drafted draft.old).contexts ≡ (drafted draft.new).contexts) }
{
    let alloc = draft.alloc();
    match note {
        LoadNote::Ready(_) => match built {
            Some((config, dialplan)) => take_over(draft, config, dialplan),
            None => unreachable!(),
        },
        LoadNote::DocRefused(_) => match fault {
            Some(fault) => Ok(Outcome::of(document_fault_text(alloc, fault)?)),
            None => unreachable!(),
        },
        LoadNote::PatternRefused {
            extension,
            condition,
            ..
        } => Ok(Outcome::of(pattern_refused_text(alloc, *extension, *condition)?)),
        LoadNote::PatternTooLarge {
            extension,
            condition,
            ..
        } => Ok(Outcome::of(pattern_too_large_text(alloc, *extension, *condition)?)),
        LoadNote::Absent | LoadNote::Failed => {
            Ok(Outcome::of(Txt::of(alloc, b"-ERR cannot read\n")?))
        }
    }
}

// The contexts of a configuration come into force, and its globals are set over those that are there, unless a limit is
// passed.
#[tactic(auto, unfolding(crate::specs::Loading::loaded_text, crate::specs::Texts::limit_passed))]
fn take_over(draft: &mut Draft<'_>, config: Config, dialplan: Dialplan) -> Result<Outcome, Memory>
    requires { dialplan ≡ config.contexts }
    ensures base { draft.new.base ≡ draft.old.base }
    ensures done { IfOk result (λ outcome.
        spec.taken_over config (set_all config.globals.pairs (drafted draft.old).globals) (drafted draft.old)
        ≡ record { state = drafted draft.new; answer = outcome.answer }) }
    ensures dialplan { IfOk result (λ outcome.
        unwrap_or (option_map arc_value outcome.dialplan) (drafted draft.old).contexts ≡ (drafted draft.new).contexts) }
{
    let alloc = draft.alloc();
    let Some(globals) = set_over(draft.globals(), config.globals())? else {
        return Ok(Outcome::of(Txt::of(alloc, b"-ERR variable limit passed\n")?));
    };
    let dialplan = Arc::new(alloc, dialplan)?;
    draft.reload(Arc::new(alloc, config)?)?;
    draft.set_globals(globals)?;
    Ok(Outcome {
        answer: Txt::of(alloc, b"+OK [Success]\n")?,
        dialplan: Some(dialplan),
    })
}

// Variables with others set over them, one after another, unless a limit is passed.
fn set_over(vars: &Vars, others: &Vars) -> Result<Option<Vars>, Memory>
    ensures { IfOk result (λ all. all ≡ set_all others.now.pairs vars.now) }
{
    let mut all = vars.copy()?;
    for (name, value) in others.pairs() {
        if !all.set(name, value.as_bytes())? {
            return Ok(None);
        }
    }
    Ok(Some(all))
}

// ---- answers

// The fault of a document, by its kind and its offset.
#[tactic(auto, unfolding(crate::specs::Loading::document_fault_text))]
fn document_fault_text(alloc: Global, fault: DocFault) -> Result<Txt, Memory>
    ensures { IfOk result (λ t. t ≡ spec.document_fault_text fault) }
{
    let mut text = Vec::new(alloc);
    text.extend_from_slice(b"-ERR ")?;
    text.extend_from_slice(fault.kind.name().as_bytes())?;
    text.extend_from_slice(b" at ")?;
    text.extend_from_slice(decimal(alloc, fault.at)?.as_bytes())?;
    text.extend_from_slice(b"\n")?;
    Txt::from_vec(text)
}

// A pattern is none, or nested too deep.
#[tactic(auto, unfolding(crate::specs::Loading::pattern_refused_text))]
fn pattern_refused_text(alloc: Global, extension: u32, condition: u32) -> Result<Txt, Memory>
    ensures { IfOk result (λ t. t ≡ spec.pattern_refused_text extension condition) }
{
    placed_text(
        alloc,
        b"-ERR pattern refused in extension ",
        extension,
        condition,
    )
}

// A pattern is too large.
#[tactic(auto, unfolding(crate::specs::Loading::pattern_too_large_text))]
fn pattern_too_large_text(alloc: Global, extension: u32, condition: u32) -> Result<Txt, Memory>
    ensures { IfOk result (λ t. t ≡ spec.pattern_too_large_text extension condition) }
{
    placed_text(
        alloc,
        b"-ERR pattern too large in extension ",
        extension,
        condition,
    )
}

// A text, and behind it where the pattern of a condition stands.
fn placed_text(alloc: Global, front: &[u8], extension: u32, condition: u32) -> Result<Txt, Memory>
    ensures { IfOk result (λ t. t ≡ front.now ++ spec.pattern_place extension condition) }
{
    let mut text = Vec::new(alloc);
    text.extend_from_slice(front)?;
    text.extend_from_slice(decimal(alloc, u64::from(extension))?.as_bytes())?;
    text.extend_from_slice(b" condition ")?;
    text.extend_from_slice(decimal(alloc, u64::from(condition))?.as_bytes())?;
    text.extend_from_slice(b"\n")?;
    Txt::from_vec(text)
}
