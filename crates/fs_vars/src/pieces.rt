//! The pieces of a text, as they are taken off its front.
ghost use Rattle.std.specs.Prelude.{◌≡◌, ◌+◌, ◌<◌, ◌≤◌, length, take, drop, nat_eq, codes};
ghost use Rattle.std.specs.Prelude.{true, false, is_some, IfSome};
ghost use Rattle.std.specs.Iterator.{at_most};
ghost use Rattle.std.specs.List.{list_any, position_or_len, starts_with};
ghost use Rattle.memchr.specs.Find.{is_byte2};
ghost use Rattle.fs_vars.specs.Expansion.{has_escape, has_reference, inside_of, is_brace};
ghost use Rattle.fs_vars.specs.Pieces.{GivesPiece, TakesPiece};

use crate::reference::value_asked;
use crate::scope::Scope;
use fs_text::offset_of;
use memchr::memchr2;
use std::marker::Model;

/// The pieces of a text as it is expanded, each a slice of the text or of a value.
#[derive(Drop)]
pub(crate) struct Pieces<'a> {
    scope: Scope<'a>,
    left: &'a [u8],
    // Whether a `}` may come. Where one was looked for in vain, none is looked for again.
    may_close: bool,
}

impl<'a> Model for Pieces<'a> {
    ghost use Rattle.std.specs.Prelude.{◌≡◌, false};
    ghost use Rattle.std.specs.List.{list_any};
    ghost use Rattle.fs_vars.specs.Expansion.{is_brace};
    ghost use Rattle.fs_vars.specs.Pieces.{Left};
    ghost use Rattle.fs_vars.specs.Scopes.{known_in};

    ghost Value = { Left };

    ghost view = { λ p. record { known = known_in p.scope; text = p.left.now } };

    ghost invariant = { λ p. p.may_close ≡ false → list_any is_brace p.left.now ≡ false };
}

impl<'a> Pieces<'a> {
    ghost use Rattle.fs_vars.specs.Scopes.{known_in};

    /// The pieces of a text in a scope.
    pub fn of(scope: Scope<'a>, text: &'a [u8]) -> Pieces<'a>
        ensures { result ≡ record { known = known_in scope.entry; text = text.now } }
    {
        Pieces {
            scope,
            left: text,
            may_close: true,
        }
    }

    /// Takes so many bytes off the front.
    fn take(&mut self, len: usize) -> &'a [u8]
        requires { len ≤ length self.old.text }
        ensures front { result.now ≡ take len self.old.text }
        ensures rest { self.new ≡ record self.old { text = drop len self.old.text } }
    {
        let (front, rest) = self.left.split_at(len);
        self.left = rest;
        front
    }

    /// Takes an escaped `$` off the front.
    fn take_escaped(&mut self) -> &'a [u8]
        requires { has_escape self.old.text ≡ true }
        ensures { TakesPiece self.old result.now self.new }
    {
        let _escaped = self.take(2);
        b"$"
    }

    /// Takes a reference of so many bytes off the front.
    fn take_reference(&mut self, len: usize) -> &'a [u8]
        requires front { has_reference self.old.text ≡ true }
        requires len { len ≡ length (inside_of self.old.text) + 3 }
        ensures { TakesPiece self.old result.now self.new }
    {
        let whole = self.take(len);
        let inside = &whole[2..len - 1];
        value_asked(&self.scope, inside).unwrap_or(whole)
    }

    /// Takes the first byte off the front, and those before the next `$` or backslash.
    fn take_plain(&mut self) -> &'a [u8]
        requires text { 0 < length self.old.text }
        requires no_escape { has_escape self.old.text ≡ false }
        requires no_reference { has_reference self.old.text ≡ false }
        ensures { TakesPiece self.old result.now self.new }
    {
        let len = plain_len(self.left);
        self.take(len)
    }

    /// How many bytes the reference in front has, if there is one.
    fn reference_len(&mut self) -> Option<usize>
        ensures found { is_some result ≡ has_reference self.old.text }
        ensures len { IfSome result (λ len. len ≡ length (inside_of self.old.text) + 3) }
        ensures within { IfSome result (λ len. len ≤ length self.old.text) }
        ensures same { self.new ≡ self.old }
    {
        if !self.may_close || !self.left.starts_with(b"${") {
            return None;
        }
        let len = closed_len(self.left);
        self.may_close = len.is_some();
        len
    }
}

impl<'a> Iterator for Pieces<'a> {
    type Item = &'a [u8];

    ghost next_gives = { GivesPiece };

    ghost remaining = { λ s. at_most (length s.text) };

    fn next(&mut self) -> Option<&'a [u8]> {
        if self.left.is_empty() {
            return None;
        }
        if self.left.starts_with(b"\\$") {
            return Some(self.take_escaped());
        }
        match self.reference_len() {
            Some(len) => Some(self.take_reference(len)),
            None => Some(self.take_plain()),
        }
    }
}

/// How many bytes the reference has whose `${` stands in front, if a `}` closes it.
fn closed_len(text: &[u8]) -> Option<usize>
    requires { starts_with nat_eq text.now (codes "${") ≡ true }
    ensures found { is_some result ≡ list_any is_brace (drop 2 text.now) }
    ensures len { IfSome result (λ len. len ≡ length (inside_of text.now) + 3) }
    ensures within { IfSome result (λ len. len ≤ length text.now) }
{
    let rest = &text[2..];
    let inside = offset_of(b'}', rest);
    if inside < rest.len() {
        Some(inside + 3)
    } else {
        None
    }
}

/// How many bytes stand as they are: the first, and those before the next `$` or backslash.
fn plain_len(text: &[u8]) -> usize
    requires { 0 < length text.now }
    ensures plain { result ≡ 1 + position_or_len (is_byte2 36 92) (drop 1 text.now) }
    ensures within { result ≤ length text.now }
{
    let rest = &text[1..];
    1 + memchr2(b'$', b'\\', rest).unwrap_or(rest.len())
}
