//! The open elements of a document, and what was read of it.

ghost use Rattle.std.specs.Prelude.{◌≡◌, false, true, IfOk};
ghost use Rattle.fs_xml.specs.Markup.{mark_of};
ghost use Rattle.fs_xml.specs.Tags.{body_of};
ghost use Rattle.fs_doc.specs.Faults.{DocGives};
ghost use Rattle.fs_doc.specs.Reading as reading;
ghost use Rattle.fs_doc.specs.Views.{Leaves, reading_of};

use crate::attributes::Element;
use crate::content::Content;
use crate::element::{Level, kind_in};
use crate::fault::{DocKind, DocStop};
use fs_text::Memory;
use fs_xml::{Body, Ending, Markup};
use std::alloc::Global;

/// An element that has not ended.
#[derive(Clone, Copy)]
pub struct Open<'a> {
    /// What may stand in it.
    pub level: Level,
    pub name: &'a [u8],
}

/// A document as far as it is read.
#[derive(Drop)]
pub struct State<'a> {
    /// The elements that have not ended, outermost first.
    pub opened: Vec<Open<'a>>,
    pub content: Content,
}

impl<'a> State<'a> {
    /// Before anything is read.
    pub fn new(alloc: Global) -> Result<State<'a>, Memory>
        ensures { IfOk result (λ s. reading_of s ≡ reading.at_first) }
    {
        Ok(State {
            opened: Vec::new(alloc),
            content: Content::new(alloc)?,
        })
    }

    /// What may stand next.
    pub fn level(&self) -> Level
        ensures { result ≡ reading.level_in (reading_of self.now).opened }
    {
        match self.opened.last() {
            Some(open) => open.level,
            None => Level::Top,
        }
    }

    /// Whether no element is open.
    pub fn is_outside(&self) -> bool
        ensures { result ≡ reading.is_outside (reading_of self.now).opened }
    {
        match self.opened.last() {
            Some(_) => false,
            None => true,
        }
    }

    /// Enters the markup that stands at an offset.
    #[tactic(auto, unfolding(crate::specs::Reading::mark_entered))]
    pub fn enter(&mut self, alloc: Global, at: usize, mark: Markup<'a>) -> Result<(), DocStop>
        ensures { Leaves self.new result (reading.mark_entered at (mark_of mark.entry) (reading_of self.old)) }
    {
        match mark {
            Markup::Comment => {
                if self.level() == Level::Empty {
                    return Err(DocStop::at(at, DocKind::BadTag));
                }
                Ok(())
            }
            Markup::End(name) => self.leave(at, name),
            Markup::Start(name, body) => self.enter_element(alloc, at, name, &body),
        }
    }

    /// Enters an element.
    #[tactic(auto, unfolding(crate::specs::Reading::start_entered))]
    fn enter_element(
        &mut self,
        alloc: Global,
        at: usize,
        name: &'a [u8],
        body: &Body<'a>,
    ) -> Result<(), DocStop>
        ensures { Leaves self.new result (reading.start_entered at name.now (body_of body.now) (reading_of self.old)) }
    {
        let level = self.begin(alloc, at, name, body)?;
        match body.ending {
            Ending::Opens => self.opened.push(Open { level, name })?,
            Ending::Closes => self.content.end(level)?,
        }
        Ok(())
    }

    /// Judges an element, and adds what it says.
    #[tactic(auto, unfolding(crate::specs::Reading::element_read))]
    fn begin(
        &mut self,
        alloc: Global,
        at: usize,
        name: &[u8],
        body: &Body<'a>,
    ) -> Result<Level, DocStop>
        ensures content { DocGives (λ level. (level, self.new.content)) result
            (reading.element_in at name.now (body_of body.now) (reading_of self.old)) }
        ensures opened { self.new.opened ≡ self.old.opened }
    {
        let kind = match kind_in(self.level(), self.content.done, name) {
            Ok(kind) => kind,
            Err(fault) => return Err(DocStop::at(at, fault)),
        };
        let element = Element {
            kind,
            tag: at,
            globals: &self.content.globals,
            attrs: &body.attrs,
        };
        let given = element.pairs(alloc, body.malformed)?;
        self.content.begin(alloc, at, kind, &given)
    }

    /// Leaves the innermost element, whose name the end tag has.
    #[tactic(auto, unfolding(crate::specs::Reading::end_entered))]
    fn leave(&mut self, at: usize, name: &[u8]) -> Result<(), DocStop>
        ensures { Leaves self.new result (reading.end_entered at name.now (reading_of self.old)) }
    {
        match self.opened.pop() {
            Some(open) if open.name == name => {
                self.content.end(open.level)?;
                Ok(())
            }
            _ => Err(DocStop::at(at, DocKind::BadTag)),
        }
    }
}
