//! A dialplan: its contexts, their extensions, conditions and actions.

ghost use Rattle.std.specs.Prelude.{◌≡◌, ◌<◌, OnOk, OnErr};
ghost use Rattle.fs_doc.specs.Dialplans.{with_extension};

use crate::field::Field;
use crate::listed::Listed;
use fs_text::{Memory, Txt};

/// A context: a dialplan of a name. Where a document has several contexts of one name, it is one with the extensions of
/// all.
#[derive(Drop)]
pub struct ContextDef<P> {
    pub name: Txt,
    pub extensions: Listed<ExtensionDef<P>>,
}

/// An extension of a context. A missing name is empty.
#[derive(Drop)]
pub struct ExtensionDef<P> {
    pub name: Txt,
    /// Whether the hunt goes on behind it, once it is taken.
    pub goes_on: bool,
    pub conditions: Listed<ConditionDef<P>>,
}

/// A condition, and what is done where it is true and where it is false.
pub struct ConditionDef<P> {
    pub test: Test<P>,
    pub stop: Break,
    pub actions: Listed<PlanAction>,
    pub anti: Listed<PlanAction>,
}

impl<P: Drop> Drop for ConditionDef<P> {
    fn drop(self) {
        let ConditionDef {
            test: _test,
            stop: _stop,
            actions: _actions,
            anti: _anti,
        } = self;
    }
}

/// What a condition tests. `P` is the type of its patterns, which a document has as texts.
#[derive(Drop)]
pub enum Test<P> {
    /// Nothing: it is true.
    Always,
    /// The pattern is searched in the field's value.
    Plain {
        field: Field,
        expression: P,
    },
    /// So many of the children match.
    Many {
        kind: ManyKind,
        children: Listed<Child<P>>,
    },
}

/// A test among several.
#[derive(Drop)]
pub struct Child<P> {
    pub field: Field,
    pub expression: P,
}

/// How many of several tests have to match: all, at least one, or exactly one.
#[derive(Clone, Copy, Debug, PartialEq, Eq)]
pub enum ManyKind {
    All,
    Any,
    Xor,
}

/// Behind which conditions an extension stops: a false one, a true one, any or none.
#[derive(Clone, Copy, Debug, PartialEq, Eq)]
pub enum Break {
    OnFalse,
    OnTrue,
    Always,
    Never,
}

/// An application with its argument.
#[derive(Drop)]
pub struct PlanAction {
    pub application: Txt,
    pub argument: Txt,
    /// Whether it runs at once, while the dialplan is searched.
    pub inline: bool,
}

/// Puts an extension behind those of the context at a position.
pub(crate) fn add_extension(
    contexts: &mut Vec<ContextDef<Txt>>,
    position: usize,
    extension: ExtensionDef<Txt>,
) -> Result<(), Memory>
    ensures added { OnOk result (contexts.new.items ≡ with_extension position extension contexts.old.items) }
    ensures err { OnErr result (contexts.new.items ≡ contexts.old.items) }
{
    if position < contexts.len() {
        contexts[position].extensions.push(extension)?;
    }
    Ok(())
}

impl ConditionDef<Txt> {
    ghost use Rattle.fs_doc.specs.Dialplans.{with_child, with_action};

    /// Adds a child to a condition that tests several.
    pub(crate) fn add_child(&mut self, field: Field, expression: Txt) -> Result<(), Memory>
        ensures { OnOk result (self.new ≡ with_child field expression self.old) }
    {
        if let Test::Many { children, .. } = &mut self.test {
            children.push(Child { field, expression })?;
        }
        Ok(())
    }

    /// Adds an action, or an anti-action.
    pub(crate) fn add_action(&mut self, anti: bool, action: PlanAction) -> Result<(), Memory>
        ensures { OnOk result (self.new ≡ with_action anti action self.old) }
    {
        if anti {
            self.anti.push(action)
        } else {
            self.actions.push(action)
        }
    }
}
