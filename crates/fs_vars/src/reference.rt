//! A reference to a value, between its braces.
ghost use Rattle.std.specs.Prelude.{◌≡◌};
ghost use Rattle.std.specs.Option.{option_map};
ghost use Rattle.std.specs.List.{list_any};
ghost use Rattle.fs_vars.specs.Expansion.{asked_name, asked_part, is_call, value_asked};
ghost use Rattle.fs_vars.specs.Scopes.{known_in};

use crate::part::Part;
use crate::scope::Scope;
use fs_text::cut_at;

/// What stands between the braces of a reference: a name, and the part of its value that is asked for.
#[derive(Clone, Copy)]
struct Reference<'a> {
    name: &'a [u8],
    part: Option<Part>,
}

impl<'a> Reference<'a> {
    /// Reads what stands between the braces. Where what follows the first colon is no part, all of it is the name.
    fn read(inside: &'a [u8]) -> Reference<'a>
        ensures name { result.name.now ≡ asked_name inside.now }
        ensures part { result.part ≡ asked_part inside.now }
    {
        let whole = Reference {
            name: inside,
            part: None,
        };
        let (name, asked) = cut_at(b':', inside);
        match Part::read(asked) {
            Some(part) => Reference {
                name,
                part: Some(part),
            },
            None => whole,
        }
    }
}

/// What a reference gives, or `None` where it stands as it is written, as one whose name has `(` or `$` does.
#[tactic(auto, unfolding(crate::specs::Expansion::value_asked))]
pub(crate) fn value_asked<'a>(scope: &Scope<'a>, inside: &[u8]) -> Option<&'a [u8]>
    ensures { option_map (λ value. value.now) result ≡ value_asked (known_in scope.now) inside.now }
{
    let Reference { name, part } = Reference::read(inside);
    if is_call(name) {
        return None;
    }
    let value = match scope.get(name) {
        Some(text) => text.as_bytes(),
        None => &[],
    };
    match part {
        Some(part) => Some(part.of(value)),
        None => Some(value),
    }
}

/// Whether a name has `(` or `$`.
fn is_call(name: &[u8]) -> bool
    ensures { result ≡ list_any is_call name.now }
{
    name.iter().any(|b| *b == b'(' || *b == b'$')
}
