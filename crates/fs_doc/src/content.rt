//! What is read of a document, element by element.

ghost use Rattle.std.specs.Prelude.{◌≡◌, ◌≤◌, false, true, length, IfOk, OnOk};
ghost use Rattle.fs_doc.specs.Faults.{DocGives, or_at};
ghost use Rattle.fs_doc.specs.Contents as contents;

use crate::attributes::{break_of, global_of, many_of};
use crate::dialplan::{Break, ConditionDef, ContextDef, ExtensionDef, PlanAction, Test};
use crate::element::{Kind, Level};
use crate::fault::{DocKind, DocStop};
use crate::field::Field;
use crate::given::Given;
use crate::listed::Listed;
use crate::settings::{ConfigFile, Settings};
use fs_text::{Memory, Txt};
use fs_vars::{Bounds, Vars};
use std::alloc::Global;

// How many contexts, extensions, patterns and actions a document may have, and how many bytes a pattern.
const MOST_CONTEXTS: usize = 256;

const MOST_EXTENSIONS: usize = 4_096;

const MOST_PATTERNS: usize = 4_096;

const MOST_ACTIONS: usize = 32_768;

const PATTERN_LIMIT: usize = 1_024;

/// What was read of a document.
pub struct Content {
    /// Whether the document is over.
    pub done: bool,
    pub globals: Vars,
    pub settings: Settings,
    pub contexts: Listed<ContextDef<Txt>>,
    /// The position of the context that was opened last.
    pub context: usize,
    /// The open extension, without the open condition.
    pub extension: Option<ExtensionDef<Txt>>,
    /// The open condition.
    pub condition: Option<ConditionDef<Txt>>,
    pub extensions: usize,
    pub patterns: usize,
    pub actions: usize,
}

impl Drop for Content {
    fn drop(self) {
        let Content {
            done: _done,
            globals: _globals,
            settings: _settings,
            contexts: _contexts,
            context: _context,
            extension: _extension,
            condition: _condition,
            extensions: _extensions,
            patterns: _patterns,
            actions: _actions,
        } = self;
    }
}

impl Content {
    /// Before anything is read.
    #[tactic(auto, unfolding(crate::specs::Contents::new_content))]
    pub fn new(alloc: Global) -> Result<Content, Memory>
        ensures { IfOk result (λ c. c ≡ contents.new_content) }
    {
        Ok(Content {
            done: false,
            globals: Vars::new(alloc, Bounds::Globals)?,
            settings: Settings::new(alloc)?,
            contexts: Listed::new(alloc),
            context: 0,
            extension: None,
            condition: None,
            extensions: 0,
            patterns: 0,
            actions: 0,
        })
    }

    /// The settings, the globals and the contexts.
    pub(crate) fn into_parts(self) -> (Settings, Vars, Listed<ContextDef<Txt>>)
        ensures { result ≡ (self.settings, self.globals, self.contexts) }
    {
        let Content {
            done: _done,
            globals,
            settings,
            contexts,
            context: _context,
            extension: _extension,
            condition: _condition,
            extensions: _extensions,
            patterns: _patterns,
            actions: _actions,
        } = self;
        (settings, globals, contexts)
    }

    /// Begins an element, and says what may stand in it.
    #[tactic(auto, unfolding(crate::specs::Contents::element_begun))]
    pub fn begin(
        &mut self,
        alloc: Global,
        at: usize,
        kind: Kind,
        given: &Given<'_>,
    ) -> Result<Level, DocStop>
        ensures { DocGives (λ level. (level, self.new)) result
            (or_at at (contents.element_begun kind given.now self.old)) }
    {
        match kind {
            Kind::Document => Ok(Level::Document),
            Kind::Global => self.set_global(at, given),
            Kind::Section => Ok(section_level(given.bytes(b"name"))),
            Kind::Configuration => {
                Ok(Level::Configuration(ConfigFile::of(given.bytes(b"name"))))
            }
            Kind::Settings(file) => Ok(Level::Settings(file)),
            Kind::Param(file) => self.set_param(alloc, at, file, given),
            Kind::Context => self.begin_context(alloc, at, given),
            Kind::Extension => self.begin_extension(alloc, at, given),
            Kind::Condition => self.begin_condition(alloc, at, given),
            Kind::Case => self.add_case(alloc, at, given),
            Kind::Action => self.add_action(alloc, at, false, given),
            Kind::AntiAction => self.add_action(alloc, at, true, given),
            Kind::Foreign => Ok(Level::Foreign),
        }
    }

    #[tactic(auto, unfolding(crate::specs::Contents::global_begun))]
    fn set_global(&mut self, at: usize, given: &Given<'_>) -> Result<Level, DocStop>
        ensures { DocGives (λ level. (level, self.new)) result (or_at at (contents.global_begun given.now self.old)) }
    {
        let Some((name, value)) = global_of(given.bytes(b"data")) else {
            return Ok(Level::Empty);
        };
        if self.globals.set(name, value)? {
            Ok(Level::Empty)
        } else {
            Err(DocStop::at(at, DocKind::TooLarge))
        }
    }

    #[tactic(auto, unfolding(crate::specs::Contents::param_begun))]
    fn set_param(
        &mut self,
        alloc: Global,
        at: usize,
        file: ConfigFile,
        given: &Given<'_>,
    ) -> Result<Level, DocStop>
        ensures { DocGives (λ level. (level, self.new)) result
            (or_at at (contents.param_begun file given.now self.old)) }
    {
        let value = given.text(alloc, b"value")?;
        match self.settings.set(file, given.bytes(b"name"), value) {
            Some(()) => Ok(Level::Empty),
            None => Err(DocStop::at(at, DocKind::BadSetting)),
        }
    }

    #[tactic(auto, unfolding(crate::specs::Contents::context_begun))]
    fn begin_context(
        &mut self,
        alloc: Global,
        at: usize,
        given: &Given<'_>,
    ) -> Result<Level, DocStop>
        ensures { DocGives (λ level. (level, self.new)) result (or_at at (contents.context_begun given.now self.old)) }
    {
        let contexts = self.contexts.as_slice();
        let len = contexts.len();
        let position = context_position(given.bytes(b"name"), contexts);
        if position >= len {
            if len >= MOST_CONTEXTS {
                return Err(DocStop::at(at, DocKind::TooLarge));
            }
            let name = given.text(alloc, b"name")?;
            let extensions = Listed::new(alloc);
            self.contexts.push(ContextDef { name, extensions })?;
        }
        self.context = position;
        Ok(Level::Context)
    }

    #[tactic(auto, unfolding(crate::specs::Contents::extension_begun))]
    fn begin_extension(
        &mut self,
        alloc: Global,
        at: usize,
        given: &Given<'_>,
    ) -> Result<Level, DocStop>
        ensures { DocGives (λ level. (level, self.new)) result
            (or_at at (contents.extension_begun given.now self.old)) }
    {
        if self.extensions >= MOST_EXTENSIONS {
            return Err(DocStop::at(at, DocKind::TooLarge));
        }
        self.extensions += 1;
        self.extension = Some(ExtensionDef {
            name: given.text(alloc, b"name")?,
            goes_on: given.bytes(b"continue") == b"true".as_slice(),
            conditions: Listed::new(alloc),
        });
        Ok(Level::Extension)
    }

    #[tactic(auto, unfolding(crate::specs::Contents::condition_begun))]
    fn begin_condition(
        &mut self,
        alloc: Global,
        at: usize,
        given: &Given<'_>,
    ) -> Result<Level, DocStop>
        ensures { DocGives (λ level. (level, self.new)) result
            (or_at at (contents.condition_begun given.now self.old)) }
    {
        if let Some(kind) = many_of(given.bytes(b"regex")) {
            let children = Listed::new(alloc);
            let test = Test::Many { kind, children };
            self.condition = Some(condition_of(alloc, given, test));
            return Ok(Level::Cases);
        }
        if given.has(b"field") || given.has(b"expression") {
            return self.begin_pattern(alloc, at, given);
        }
        self.condition = Some(condition_of(alloc, given, Test::Always));
        Ok(Level::Condition)
    }

    #[tactic(auto, unfolding(crate::specs::Contents::pattern_begun))]
    fn begin_pattern(
        &mut self,
        alloc: Global,
        at: usize,
        given: &Given<'_>,
    ) -> Result<Level, DocStop>
        ensures { DocGives (λ level. (level, self.new)) result (or_at at (contents.pattern_begun given.now self.old)) }
    {
        self.count_pattern(at, given)?;
        let field = Field::of(given.text(alloc, b"field")?);
        let expression = given.text(alloc, b"expression")?;
        let test = Test::Plain { field, expression };
        self.condition = Some(condition_of(alloc, given, test));
        Ok(Level::Condition)
    }

    /// Counts a pattern.
    #[tactic(auto, unfolding(crate::specs::Contents::pattern_counted))]
    fn count_pattern(&mut self, at: usize, given: &Given<'_>) -> Result<(), DocStop>
        ensures { DocGives (λ _. self.new) result (or_at at (contents.pattern_counted given.now self.old)) }
    {
        let len = given.bytes(b"expression").len();
        if len > PATTERN_LIMIT || self.patterns >= MOST_PATTERNS {
            return Err(DocStop::at(at, DocKind::TooLarge));
        }
        self.patterns += 1;
        Ok(())
    }

    #[tactic(auto, unfolding(crate::specs::Contents::case_begun))]
    fn add_case(&mut self, alloc: Global, at: usize, given: &Given<'_>) -> Result<Level, DocStop>
        ensures { DocGives (λ level. (level, self.new)) result (or_at at (contents.case_begun given.now self.old)) }
    {
        self.count_pattern(at, given)?;
        let field = Field::of(given.text(alloc, b"field")?);
        let expression = given.text(alloc, b"expression")?;
        if let Some(condition) = &mut self.condition {
            condition.add_child(field, expression)?;
        }
        Ok(Level::Empty)
    }

    #[tactic(auto, unfolding(crate::specs::Contents::action_begun))]
    fn add_action(
        &mut self,
        alloc: Global,
        at: usize,
        anti: bool,
        given: &Given<'_>,
    ) -> Result<Level, DocStop>
        ensures { DocGives (λ level. (level, self.new)) result
            (or_at at (contents.action_begun anti given.now self.old)) }
    {
        if self.actions >= MOST_ACTIONS {
            return Err(DocStop::at(at, DocKind::TooLarge));
        }
        self.actions += 1;
        let action = action_of(alloc, given)?;
        if let Some(condition) = &mut self.condition {
            condition.add_action(anti, action)?;
        }
        Ok(Level::Empty)
    }

    /// Ends the element that these stood in.
    #[tactic(auto, unfolding(crate::specs::Contents::element_ended))]
    pub fn end(&mut self, level: Level) -> Result<(), Memory>
        ensures { OnOk result (self.new ≡ contents.element_ended level self.old) }
    {
        match level {
            Level::Document => {
                self.done = true;
                Ok(())
            }
            Level::Extension => self.end_extension(),
            Level::Condition | Level::Cases => self.end_condition(),
            _ => Ok(()),
        }
    }

    fn end_extension(&mut self) -> Result<(), Memory>
        ensures { OnOk result (self.new ≡ contents.extension_ended self.old self.old.extension) }
    {
        if let Some(extension) = self.extension.take() {
            self.contexts.add_extension(self.context, extension)?;
        }
        Ok(())
    }

    fn end_condition(&mut self) -> Result<(), Memory>
        ensures { OnOk result (self.new ≡ contents.condition_ended self.old self.old.condition) }
    {
        if let Some(condition) = self.condition.take() {
            if let Some(extension) = &mut self.extension {
                extension.conditions.push(condition)?;
            }
        }
        Ok(())
    }
}

/// What may stand in the section of a name.
#[tactic(auto, unfolding(crate::specs::Contents::section_level))]
fn section_level(name: &[u8]) -> Level
    ensures { result ≡ contents.section_level name.now }
{
    if name == b"dialplan".as_slice() {
        Level::Dialplan
    } else if name == b"configuration".as_slice() {
        Level::Configurations
    } else {
        Level::Foreign
    }
}

/// The position of the context of a name, or their number where there is none.
fn context_position(name: &[u8], contexts: &[ContextDef<Txt>]) -> usize
    ensures position { result ≡ contents.context_position name.now contexts.now }
    ensures within { result ≤ length contexts.now }
{
    let mut position = 0;
    while position < contexts.len() {
        if contexts[position].name.as_bytes() == name {
            return position;
        }
        position += 1;
    }
    position
}

/// A condition of this test, without actions.
fn condition_of(alloc: Global, given: &Given<'_>, test: Test<Txt>) -> ConditionDef<Txt>
    ensures { result ≡ contents.condition_of given.now test }
{
    ConditionDef {
        test,
        stop: break_of(given.bytes(b"break")).unwrap_or(Break::OnFalse),
        actions: Listed::new(alloc),
        anti: Listed::new(alloc),
    }
}

fn action_of(alloc: Global, given: &Given<'_>) -> Result<PlanAction, Memory>
    ensures { IfOk result (λ action. action ≡ contents.action_of given.now) }
{
    let application = given.text(alloc, b"application")?;
    let argument = given.text(alloc, b"data")?;
    Ok(PlanAction {
        application,
        argument,
        inline: is_inline(given),
    })
}

#[tactic(auto, unfolding(crate::specs::Contents::is_inline))]
fn is_inline(given: &Given<'_>) -> bool
    ensures { result ≡ contents.is_inline given.now }
{
    given.bytes(b"inline") == b"true".as_slice()
}
