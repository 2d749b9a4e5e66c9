//! The attributes of an element.

ghost use Rattle.std.specs.Prelude.{◌≡◌, [], map, IfOk, option_map};
ghost use Rattle.std.specs.Str.{is_utf8};
ghost use Rattle.fs_xml.specs.Attributes.{written_of};
ghost use Rattle.fs_doc.specs.Faults.{DocGives};
ghost use Rattle.fs_doc.specs.Attributes as judged;
ghost use Rattle.fs_doc.specs.Tagged.{tagged_of, pairs_seen, text_seen};

use crate::dialplan::{Break, ManyKind};
use crate::element::Kind;
use crate::fault::{DocKind, DocStop};
use crate::given::Given;
use crate::values::read_value;
use fs_text::{Memory, Txt, split_at_byte};
use fs_vars::Vars;
use fs_xml::{Attr, ValueFault, ValueStop};
use std::alloc::Global;

/// An element's start tag: its kind, where it stands, the globals that are set before it, and its attributes.
#[derive(Clone, Copy)]
pub(crate) struct Element<'e, 'a> {
    pub kind: Kind,
    pub tag: usize,
    pub globals: &'e Vars,
    pub attrs: &'e [Attr<'a>],
}

/// The value of `break`.
#[tactic(auto, unfolding(crate::specs::Attributes::break_of))]
pub(crate) fn break_of(text: &[u8]) -> Option<Break>
    ensures { result ≡ judged.break_of text.now }
{
    if text == b"on-false".as_slice() {
        Some(Break::OnFalse)
    } else if text == b"on-true".as_slice() {
        Some(Break::OnTrue)
    } else if text == b"always".as_slice() {
        Some(Break::Always)
    } else if text == b"never".as_slice() {
        Some(Break::Never)
    } else {
        None
    }
}

/// The value of `regex`.
#[tactic(auto, unfolding(crate::specs::Attributes::many_of))]
pub(crate) fn many_of(text: &[u8]) -> Option<ManyKind>
    ensures { result ≡ judged.many_of text.now }
{
    if text == b"all".as_slice() {
        Some(ManyKind::All)
    } else if text == b"any".as_slice() {
        Some(ManyKind::Any)
    } else if text == b"xor".as_slice() {
        Some(ManyKind::Xor)
    } else {
        None
    }
}

/// The name and the value that `data` of `X-PRE-PROCESS` sets.
#[tactic(auto, unfolding(crate::specs::Attributes::global_of))]
pub(crate) fn global_of(text: &[u8]) -> Option<(&[u8], &[u8])>
    ensures { option_map (λ halves. (halves.0.now, halves.1.now)) result ≡ judged.global_of text.now }
{
    let (name, value) = split_at_byte(b'=', text)?;
    if name.is_empty() {
        None
    } else {
        Some((name, value))
    }
}

/// Whether a `${` stands in the text.
pub(crate) fn has_variable(text: &[u8]) -> bool
    ensures { result ≡ judged.has_variable text.now }
{
    let mut left = text;
    while let [_, rest @ ..] = left {
        if left.starts_with(b"${") {
            return true;
        }
        left = rest;
    }
    false
}

#[tactic(auto, unfolding(crate::specs::Attributes::expression_fault))]
fn expression_fault(text: &[u8]) -> Option<DocKind>
    ensures { result ≡ judged.expression_fault text.now }
{
    if !is_utf8(text) {
        Some(DocKind::BadAttribute)
    } else if has_variable(text) {
        Some(DocKind::ExpressionVariable)
    } else {
        None
    }
}

fn is_utf8(text: &[u8]) -> bool
    ensures { result ≡ is_utf8 text.now }
{
    str::from_utf8(text).is_ok()
}

/// The attributes by which the date decides.
#[tactic(auto, unfolding(crate::specs::Attributes::is_date))]
fn is_date(name: &[u8]) -> bool
    ensures { result ≡ judged.is_date name.now }
{
    name == b"wday".as_slice()
        || name == b"mday".as_slice()
        || name == b"mon".as_slice()
        || name == b"year".as_slice()
        || name == b"yday".as_slice()
        || name == b"mweek".as_slice()
        || name == b"week".as_slice()
        || name == b"date-time".as_slice()
}

/// The attributes by which the time of day decides.
#[tactic(auto, unfolding(crate::specs::Attributes::is_clock))]
fn is_clock(name: &[u8]) -> bool
    ensures { result ≡ judged.is_clock name.now }
{
    name == b"hour".as_slice()
        || name == b"minute".as_slice()
        || name == b"minute-of-day".as_slice()
        || name == b"time-of-day".as_slice()
        || name == b"tz-offset".as_slice()
        || name == b"dst".as_slice()
}

/// Whether an application may be inline.
#[tactic(auto, unfolding(crate::specs::Attributes::may_be_inline))]
fn may_be_inline(application: &[u8]) -> bool
    ensures { result ≡ judged.may_be_inline application.now }
{
    application == b"set".as_slice()
        || application == b"unset".as_slice()
        || application == b"export".as_slice()
        || application == b"set_global".as_slice()
        || application == b"log".as_slice()
        || application == b"eval".as_slice()
}

fn fault_unless(fine: bool, fault: DocKind) -> Option<DocKind>
    ensures { result ≡ judged.fault_unless fine fault }
{
    if fine { None } else { Some(fault) }
}

#[tactic(auto, unfolding(crate::specs::Attributes::global_fault))]
fn global_fault(name: &[u8], text: &[u8]) -> Option<DocKind>
    ensures { result ≡ judged.global_fault name.now text.now }
{
    if name == b"cmd".as_slice() {
        fault_unless(text == b"set".as_slice(), DocKind::UnknownElement)
    } else if name == b"data".as_slice() {
        fault_unless(sets_global(text), DocKind::BadAttribute)
    } else {
        None
    }
}

fn sets_global(text: &[u8]) -> bool
    ensures { result ≡ judged.sets_global text.now }
{
    global_of(text).is_some()
}

#[tactic(auto, unfolding(crate::specs::Attributes::condition_fault))]
fn condition_fault(name: &[u8], text: &[u8]) -> Option<DocKind>
    ensures { result ≡ judged.condition_fault name.now text.now }
{
    if name == b"expression".as_slice() {
        expression_fault(text)
    } else if name == b"break".as_slice() {
        fault_unless(break_of(text).is_some(), DocKind::UnknownBreak)
    } else if name == b"regex".as_slice() {
        fault_unless(many_of(text).is_some(), DocKind::BadAttribute)
    } else {
        None
    }
}

#[tactic(auto, unfolding(crate::specs::Attributes::case_fault))]
fn case_fault(name: &[u8], text: &[u8]) -> Option<DocKind>
    ensures { result ≡ judged.case_fault name.now text.now }
{
    if name == b"expression".as_slice() {
        expression_fault(text)
    } else {
        None
    }
}

/// The first attribute of a name.
fn written_as<'e, 'a>(name: &[u8], attrs: &'e [Attr<'a>]) -> Option<&'e Attr<'a>>
    ensures { option_map (λ a. written_of a.now) result ≡ judged.written_as name.now (map written_of attrs.now) }
{
    let mut left = attrs;
    while let [attr, rest @ ..] = left {
        if attr.name == name {
            return Some(attr);
        }
        left = rest;
    }
    None
}

/// Where a fault of an attribute is told: an unknown command at the tag, all else at the attribute's name.
fn fault_offset(tag: usize, name: usize, kind: DocKind) -> usize
    ensures { result ≡ judged.fault_offset tag name kind }
{
    match kind {
        DocKind::UnknownElement => tag,
        _ => name,
    }
}

impl<'e, 'a> Element<'e, 'a> {
    /// The names and texts of all attributes, or the first fault: of an attribute in their order, then of a malformed
    /// one, then of one that is missing.
    #[tactic(auto, unfolding(crate::specs::Attributes::pairs_read))]
    pub fn pairs(&self, alloc: Global, malformed: Option<usize>) -> Result<Given<'a>, DocStop>
        ensures { DocGives pairs_seen result (judged.pairs_read (tagged_of self.now) malformed) }
    {
        let given = self.all_read(alloc)?;
        if let Some(at) = malformed {
            return Err(DocStop::at(at, DocKind::BadAttribute));
        }
        if !self.kind.has_needed(&given) {
            return Err(DocStop::at(self.tag, DocKind::BadAttribute));
        }
        Ok(given)
    }

    fn all_read(&self, alloc: Global) -> Result<Given<'a>, DocStop>
        ensures { DocGives pairs_seen result
            (judged.attributes_read (tagged_of self.now) [] (map written_of self.now.attrs.now)) }
    {
        let mut given = Given::new(alloc);
        let mut left = self.attrs;
        while let [attr, rest @ ..] = left {
            self.read(alloc, attr, &mut given)?;
            left = rest;
        }
        Ok(given)
    }

    /// Adds one attribute.
    #[tactic(auto, unfolding(crate::specs::Attributes::attribute_read))]
    fn read(&self, alloc: Global, attr: &Attr<'a>, given: &mut Given<'a>) -> Result<(), DocStop>
        ensures { DocGives (λ _. given.new) result
            (judged.attribute_read (tagged_of self.now) given.old (written_of attr.now)) }
    {
        if given.has(attr.name) {
            return Err(DocStop::at(attr.at, DocKind::BadAttribute));
        }
        if self.is_timed(attr.name) {
            return Err(DocStop::at(attr.at, DocKind::TimeAttribute));
        }
        let text = self.text(alloc, attr)?;
        if let Some(kind) = self.value_fault(alloc, attr.name, text.as_bytes())? {
            return Err(DocStop::at(fault_offset(self.tag, attr.at, kind), kind));
        }
        given.push(attr.name, text)?;
        Ok(())
    }

    /// Whether an attribute is one by which the time decides.
    fn is_timed(&self, name: &[u8]) -> bool
        ensures { result ≡ judged.is_timed self.now.kind name.now }
    {
        match self.kind {
            Kind::Condition => is_date(name) || is_clock(name),
            _ => false,
        }
    }

    /// The text of a value.
    #[tactic(auto, unfolding(crate::specs::Attributes::text_read))]
    fn text(&self, alloc: Global, attr: &Attr<'a>) -> Result<Txt, DocStop>
        ensures { DocGives text_seen result (judged.text_read (tagged_of self.now) (written_of attr.now)) }
    {
        match read_value(
            alloc,
            self.kind.is_foreign(),
            self.globals,
            attr.end,
            attr.value,
        ) {
            Ok(text) => Ok(text),
            Err(ValueStop::Memory) => Err(DocStop::Memory),
            Err(ValueStop::Fault(ValueFault::Raw)) => {
                Err(DocStop::at(attr.at, DocKind::BadAttribute))
            }
            Err(ValueStop::Fault(ValueFault::BadEntity { at })) => {
                Err(DocStop::at(at, DocKind::BadEntity))
            }
        }
    }

    /// What is wrong with the text of an attribute.
    #[tactic(auto, unfolding(crate::specs::Attributes::value_fault))]
    fn value_fault(
        &self,
        alloc: Global,
        name: &[u8],
        text: &[u8],
    ) -> Result<Option<DocKind>, Memory>
        ensures { IfOk result (λ fault. fault ≡ judged.value_fault (tagged_of self.now) name.now text.now) }
    {
        match self.kind {
            Kind::Global => Ok(global_fault(name, text)),
            Kind::Condition => Ok(condition_fault(name, text)),
            Kind::Case => Ok(case_fault(name, text)),
            Kind::Action | Kind::AntiAction => self.inline_fault(alloc, name, text),
            _ => Ok(None),
        }
    }

    /// `inline` on an application that may not be.
    #[tactic(auto, unfolding(crate::specs::Attributes::inline_fault))]
    fn inline_fault(
        &self,
        alloc: Global,
        name: &[u8],
        text: &[u8],
    ) -> Result<Option<DocKind>, Memory>
        ensures { IfOk result (λ fault. fault ≡ judged.inline_fault (tagged_of self.now) name.now text.now) }
    {
        if name == b"inline".as_slice() && text == b"true".as_slice() {
            let may = self.may_be_inline(alloc)?;
            Ok(fault_unless(may, DocKind::BadAttribute))
        } else {
            Ok(None)
        }
    }

    /// Whether the application may be inline. Where it is missing or cannot be read, that is told elsewhere.
    #[tactic(auto, unfolding(crate::specs::Attributes::application_may))]
    fn may_be_inline(&self, alloc: Global) -> Result<bool, Memory>
        ensures { IfOk result (λ may. may ≡ judged.application_may (tagged_of self.now)) }
    {
        let Some(attr) = written_as(b"application", self.attrs) else {
            return Ok(true);
        };
        match read_value(alloc, false, self.globals, attr.end, attr.value) {
            Ok(application) => Ok(may_be_inline(application.as_bytes())),
            Err(ValueStop::Memory) => Err(Memory),
            Err(ValueStop::Fault(_)) => Ok(true),
        }
    }
}
