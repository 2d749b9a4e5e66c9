//! Which bytes of a bracket are protected by quotes and backslashes.

ghost use Rattle.std.specs.Prelude.{◌≡◌, ◌≤◌, ◌++◌, length, IfOk};
ghost use Rattle.fs_dial.specs.Guards as guards;
ghost use Rattle.fs_dial.specs.declared.guard.Guard.TheVariants as guard;

use fs_text::Memory;
use std::alloc::Global;

/// How a byte is protected.
#[derive(Clone, Copy)]
pub(crate) enum Guard {
    /// It is not.
    Bare,
    /// By the single quotes that it stands in.
    Quoted,
    /// By the backslash before it.
    Behind,
}

/// Whether a byte protects others: a single quote or a backslash.
#[tactic(auto, unfolding(crate::specs::Guards::is_guard))]
fn is_guard(b: u8) -> bool
    ensures { result ≡ guards.is_guard b }
{
    b == b'\'' || b == b'\\'
}

impl Guard {
    /// How the byte behind one is protected.
    #[tactic(auto, unfolding(crate::specs::Guards::guard_after))]
    fn after(self, b: u8) -> Guard
        ensures { result ≡ guards.guard_after self b }
    {
        match self {
            Guard::Bare => match b {
                b'\'' => Guard::Quoted,
                b'\\' => Guard::Behind,
                _ => Guard::Bare,
            },
            Guard::Quoted => {
                if b == b'\'' {
                    Guard::Bare
                } else {
                    Guard::Quoted
                }
            }
            Guard::Behind => Guard::Bare,
        }
    }

    /// Whether a byte is this mark, and not protected. A quote and a backslash are no marks.
    #[tactic(auto, unfolding(crate::specs::Guards::is_mark))]
    fn finds(self, mark: u8, b: u8) -> bool
        ensures { result ≡ guards.is_mark mark self b }
    {
        match self {
            Guard::Bare => !is_guard(b) && b == mark,
            Guard::Quoted | Guard::Behind => false,
        }
    }

    /// Adds what is left of a byte without quotes and backslashes.
    #[tactic(auto, unfolding(crate::specs::Guards::bared))]
    fn add_bared(self, text: &mut Vec<u8>, separator: u8, b: u8) -> Result<(), Memory>
        ensures { IfOk result (λ _. text.new.items ≡ text.old.items ++ guards.bared separator self b) }
    {
        match self {
            Guard::Bare => {
                if !is_guard(b) {
                    text.push(b)?;
                }
            }
            Guard::Quoted => {
                if b != b'\'' {
                    text.push(b)?;
                }
            }
            Guard::Behind => {
                if !is_escaped(separator, b) {
                    text.push(b'\\')?;
                }
                text.push(b)?;
            }
        }
        Ok(())
    }

    /// Adds what is left at the end.
    #[tactic(auto, unfolding(crate::specs::Guards::last_of))]
    fn add_last(self, text: &mut Vec<u8>) -> Result<(), Memory>
        ensures { IfOk result (λ _. text.new.items ≡ text.old.items ++ guards.last_of self) }
    {
        match self {
            Guard::Bare | Guard::Quoted => {}
            Guard::Behind => text.push(b'\\')?,
        }
        Ok(())
    }
}

/// Whether a byte stands for itself behind a backslash.
#[tactic(auto, unfolding(crate::specs::Guards::is_escaped))]
fn is_escaped(separator: u8, b: u8) -> bool
    ensures { result ≡ guards.is_escaped separator b }
{
    b == separator || is_guard(b) || b == b']' || b == b'}'
}

/// The text from its first such mark on that is not protected.
pub(crate) fn from_mark(mark: u8, text: &[u8]) -> &[u8]
    ensures rest { result.now ≡ guards.from_mark mark guard.Bare text.now }
    ensures within { length result.now ≤ length text.now }
{
    let mut guard = Guard::Bare;
    let mut left = text;
    while let [b, rest @ ..] = left {
        if guard.finds(mark, *b) {
            return left;
        }
        guard = guard.after(*b);
        left = rest;
    }
    left
}

/// A value without its quotes and backslashes.
pub(crate) fn plain(alloc: Global, separator: u8, value: &[u8]) -> Result<Vec<u8>, Memory>
    ensures { IfOk result (λ text. text.items ≡ guards.plain_of separator guard.Bare value.now) }
{
    let mut text = Vec::new(alloc);
    let mut guard = Guard::Bare;
    let mut left = value;
    while let [b, rest @ ..] = left {
        guard.add_bared(&mut text, separator, *b)?;
        guard = guard.after(*b);
        left = rest;
    }
    guard.add_last(&mut text)?;
    Ok(text)
}
