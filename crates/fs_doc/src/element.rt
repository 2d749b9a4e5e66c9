//! Which elements may stand in which.

ghost use Rattle.std.specs.Prelude.{◌≡◌, false, true};
ghost use Rattle.fs_doc.specs.Elements as elements;

use crate::fault::DocKind;
use crate::given::Given;
use crate::settings::ConfigFile;

/// What may stand at a level: the inside of an element.
#[derive(Clone, Copy, Debug, PartialEq, Eq)]
pub enum Level {
    /// Outside of the document.
    Top,
    Document,
    /// The section `dialplan`.
    Dialplan,
    /// The section `configuration`.
    Configurations,
    Configuration(ConfigFile),
    Settings(ConfigFile),
    Context,
    Extension,
    Condition,
    /// A condition with `regex`.
    Cases,
    /// An element that has to be empty.
    Empty,
    /// A level where nothing is judged but the markup.
    Foreign,
}

/// An element, by what it does.
#[derive(Clone, Copy, Debug, PartialEq, Eq)]
pub enum Kind {
    Document,
    /// `X-PRE-PROCESS`
    Global,
    Section,
    Configuration,
    Settings(ConfigFile),
    Param(ConfigFile),
    Context,
    Extension,
    Condition,
    /// `regex`
    Case,
    Action,
    AntiAction,
    Foreign,
}

/// The kind of an element, by where it stands, whether the document is over, and its name.
#[tactic(auto, unfolding(crate::specs::Elements::kind_in))]
pub(crate) fn kind_in(level: Level, done: bool, name: &[u8]) -> Result<Kind, DocKind>
    ensures { result ≡ elements.kind_in level done name.now }
{
    match level {
        Level::Top => kind_at_top(done, name),
        Level::Document => global_or(b"section", Kind::Section, name),
        Level::Dialplan => global_or(b"context", Kind::Context, name),
        Level::Configurations => global_or(b"configuration", Kind::Configuration, name),
        Level::Configuration(file) => Ok(kind_in_configuration(file, name)),
        Level::Settings(file) => only(b"param", Kind::Param(file), name),
        Level::Context => global_or(b"extension", Kind::Extension, name),
        Level::Extension => only(b"condition", Kind::Condition, name),
        Level::Condition => kind_in_condition(false, name),
        Level::Cases => kind_in_condition(true, name),
        Level::Empty => Err(DocKind::UnknownElement),
        Level::Foreign => Ok(Kind::Foreign),
    }
}

#[tactic(auto, unfolding(crate::specs::Elements::kind_at_top))]
fn kind_at_top(done: bool, name: &[u8]) -> Result<Kind, DocKind>
    ensures { result ≡ elements.kind_at_top done name.now }
{
    if done {
        Err(DocKind::BadTag)
    } else if name == b"document".as_slice() {
        Ok(Kind::Document)
    } else {
        Err(DocKind::UnknownElement)
    }
}

/// `X-PRE-PROCESS`, or the element of a name.
fn global_or(known: &[u8], kind: Kind, name: &[u8]) -> Result<Kind, DocKind>
    ensures { result ≡ elements.global_or known.now kind name.now }
{
    if name == b"X-PRE-PROCESS".as_slice() {
        Ok(Kind::Global)
    } else {
        only(known, kind, name)
    }
}

/// The element of a name alone.
fn only(known: &[u8], kind: Kind, name: &[u8]) -> Result<Kind, DocKind>
    ensures { result ≡ elements.only known.now kind name.now }
{
    if name == known {
        Ok(kind)
    } else {
        Err(DocKind::UnknownElement)
    }
}

fn kind_in_configuration(file: ConfigFile, name: &[u8]) -> Kind
    ensures { result ≡ elements.kind_in_configuration file name.now }
{
    if name == b"settings".as_slice() {
        Kind::Settings(file)
    } else {
        Kind::Foreign
    }
}

#[tactic(auto, unfolding(crate::specs::Elements::kind_in_condition))]
fn kind_in_condition(cases: bool, name: &[u8]) -> Result<Kind, DocKind>
    ensures { result ≡ elements.kind_in_condition cases name.now }
{
    if name == b"action".as_slice() {
        Ok(Kind::Action)
    } else if name == b"anti-action".as_slice() {
        Ok(Kind::AntiAction)
    } else if name == b"condition".as_slice() {
        Err(DocKind::Nested)
    } else if cases && name == b"regex".as_slice() {
        Ok(Kind::Case)
    } else {
        Err(DocKind::UnknownElement)
    }
}

impl Kind {
    /// Whether the attributes that an element needs are there.
    #[tactic(auto, unfolding(crate::specs::Elements::has_needed))]
    pub(crate) fn has_needed(self, given: &Given<'_>) -> bool
        ensures { result ≡ elements.has_needed self given.now }
    {
        match self {
            Kind::Global => given.has(b"cmd") && given.has(b"data"),
            Kind::Section | Kind::Configuration | Kind::Context => given.has(b"name"),
            Kind::Param(_) => given.has(b"name") && given.has(b"value"),
            Kind::Action | Kind::AntiAction => given.has(b"application"),
            Kind::Document | Kind::Settings(_) | Kind::Extension => true,
            Kind::Condition | Kind::Case | Kind::Foreign => true,
        }
    }

    pub(crate) fn is_foreign(self) -> bool
        ensures { result ≡ elements.is_foreign self }
    {
        match self {
            Kind::Foreign => true,
            _ => false,
        }
    }
}
