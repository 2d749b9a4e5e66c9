//! Lists of names and values, what takes them one by one, and the lines that tell them.

ghost use Rattle.std.specs.Prelude.{◌≡◌, ℕ, List, [], ◌∷◌, ◌++◌, length, take, IfOk, OnOk, OnErr};
ghost use Rattle.fs_text.specs.Headers as spec;

use crate::escapes::push_escaped;
use crate::memory::Memory;
use crate::text::Txt;
use std::alloc::Global;
use std::marker::Model;

/// A list of names and values, in order, as the headers of an event or a reply. A name may stand
/// in it more than once.
///
/// A contract sees it as the list of its pairs.
#[derive(Drop)]
pub struct Headers {
    pairs: Vec<(Txt, Txt)>,
}

impl Model for Headers {
    ghost use Rattle.std.specs.Prelude.{ℕ, List};

    ghost Value = { List (List ℕ × List ℕ) };

    ghost view = { λ h. h.pairs.items };
}

impl Headers {
    /// The empty list.
    pub fn new(alloc: Global) -> Headers
        ensures { result ≡ [] }
    {
        Headers {
            pairs: Vec::new(alloc),
        }
    }

    /// Puts a pair behind all others.
    pub fn push(&mut self, name: Txt, value: Txt) -> Result<(), Memory>
        ensures ok { OnOk result (self.new ≡ self.old ++ (name, value) ∷ []) }
        ensures err { OnErr result (self.new ≡ self.old) }
    {
        self.pairs.push((name, value))?;
        Ok(())
    }

    /// The pairs, in order.
    pub fn pairs(&self) -> &[(Txt, Txt)]
        ensures { result.now ≡ self.now }
    {
        self.pairs.as_slice()
    }
}

/// The pairs of a vector, in its order; takes no memory.
impl From<Vec<(Txt, Txt)>> for Headers {
    ghost from_gives = { λ pairs headers. headers ≡ pairs.items };

    fn from(pairs: Vec<(Txt, Txt)>) -> Headers {
        Headers { pairs }
    }
}

/// The vector of the pairs, in order; takes no memory.
impl From<Headers> for Vec<(Txt, Txt)> {
    ghost from_gives = { λ headers pairs. pairs.items ≡ headers };

    fn from(headers: Headers) -> Vec<(Txt, Txt)> {
        headers.pairs
    }
}

/// What takes headers one by one: a list, a text, a filter.
pub trait HeaderSink {
    // What it is once it has taken a header.
    ghost taken: { List ℕ × List ℕ → Self → Self };

    /// Takes a header.
    fn put(&mut self, name: &[u8], value: &[u8]) -> Result<(), Memory>
        ensures { OnOk result (self.new ≡ Self.taken (name.now, value.now) self.old) };

    /// Takes the header of a variable: `variable_`, and its name escaped.
    fn put_variable(&mut self, name: &[u8], value: &[u8]) -> Result<(), Memory>
        ensures { OnOk result (self.new ≡ Self.taken (spec.variable_name name.now, value.now) self.old) };
}

/// Gives a sink a header, unless its value is empty.
pub fn give<S: HeaderSink>(sink: &mut S, name: &str, value: &[u8]) -> Result<(), Memory>
    ensures { OnOk result
        (sink.new ≡ spec.taking S.taken (spec.with_values ((name.now, value.now) ∷ [])) sink.old) }
{
    if value.is_empty() {
        return Ok(());
    }
    sink.put(name.as_bytes(), value)
}

/// Gives a sink the header of a variable, unless its value is empty.
pub fn give_variable<S: HeaderSink>(sink: &mut S, name: &[u8], value: &[u8]) -> Result<(), Memory>
    ensures { OnOk result
        (sink.new ≡ spec.taking S.taken (spec.with_values ((spec.variable_name name.now, value.now) ∷ [])) sink.old) }
{
    if value.is_empty() {
        return Ok(());
    }
    sink.put_variable(name, value)
}

impl HeaderSink for Headers {
    ghost taken = { λ header headers. headers ++ header ∷ [] };

    fn put(&mut self, name: &[u8], value: &[u8]) -> Result<(), Memory> {
        let alloc = *self.pairs.allocator();
        self.push(Txt::of(alloc, name)?, Txt::of(alloc, value)?)
    }

    fn put_variable(&mut self, name: &[u8], value: &[u8]) -> Result<(), Memory> {
        let alloc = *self.pairs.allocator();
        self.push(variable_name(alloc, name)?, Txt::of(alloc, value)?)
    }
}

/// The name of the header of a variable: `variable_`, and its name escaped.
pub fn variable_name(alloc: Global, name: &[u8]) -> Result<Txt, Memory>
    ensures { IfOk result (λ text. text ≡ spec.variable_name name.now) }
{
    let mut text = Vec::from_slice(alloc, b"variable_")?;
    push_escaped(&mut text, name)?;
    Txt::from_vec(text)
}

/// Adds the line of a header to a text.
pub fn push_header(text: &mut Vec<u8>, name: &[u8], value: &[u8]) -> Result<(), Memory>
    ensures ok { OnOk result (text.new.items ≡ text.old.items ++ spec.header_line (name.now, value.now)) }
    ensures err { OnErr result (text.new.items ≡ text.old.items) }
{
    let len = text.len();
    let pushed = push_line(text, name, value);
    if pushed.is_err() {
        text.truncate(len);
    }
    pushed
}

// Adds the line of a header, or a part of it.
fn push_line(text: &mut Vec<u8>, name: &[u8], value: &[u8]) -> Result<(), Memory>
    ensures ok { OnOk result (text.new.items ≡ text.old.items ++ spec.header_line (name.now, value.now)) }
    ensures err { OnErr result (take (length text.old.items) text.new.items ≡ text.old.items) }
{
    text.extend_from_slice(name)?;
    text.extend_from_slice(b": ")?;
    text.extend_from_slice(value)?;
    text.push(b'\n')?;
    Ok(())
}
