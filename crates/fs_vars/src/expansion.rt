//! The expansion of a text.
ghost use Rattle.std.specs.Prelude.{◌≡◌, ◌≤◌, [], length, IfOk, IfErr};
ghost use Rattle.fs_vars.specs.Pairs.{Pairs};
ghost use Rattle.fs_vars.specs.Expansion.{expanded};
ghost use Rattle.fs_vars.specs.Laws as law;
ghost use Rattle.fs_vars.specs.Outputs.{IsTextRefusal};
ghost use Rattle.fs_vars.specs.Scopes.{known_in};

use crate::output::Output;
use crate::pieces::Pieces;
use crate::refused::Refused;
use crate::scope::Scope;
use fs_text::Txt;
use std::alloc::Global;

/// A text with the references to variables in it replaced by their values.
///
/// `\$` gives `$`. `${name}` gives the value that the scope has under the name, or nothing; `${name:offset}` and
/// `${name:offset:length}` give a part of it, in bytes. A reference without its `}`, and one whose name has `(` or `$`,
/// stand as they are written. Values are not expanded again. Where the whole result would have more than 65,536 bytes,
/// its length is given instead.
pub fn expand(alloc: Global, scope: &Scope, text: &[u8]) -> Result<Txt, Refused>
    ensures text { IfOk result (λ t. t ≡ expanded (known_in scope.now) text.now) }
    ensures short { IfOk result (λ t. length t ≤ 65536) }
    ensures refused { IfErr result (IsTextRefusal (expanded (known_in scope.now) text.now)) }
{
    let mut output = Output::new(alloc);
    for piece in Pieces::of(*scope, text) {
        output.add(piece)?;
    }
    output.into_text()
}

/// What the definition of an expansion says, case by case: the value of [`expand`] at each beginning of a text, and
/// what a reference means.
pub fn expansion_law()
    // No text gives no text.
    ensures nothing { (known : Pairs) → expanded known [] ≡ [] }

    // `\$` gives `$`.
    ensures escape { law.EscapeGivesDollar }

    // `${`, what stands up to the first `}`, and that `}` are a reference.
    ensures reference { law.ReferenceGivesMeaning }

    // Any other byte stands as it is, the `$` of a `${` without its `}` too.
    ensures other { law.OtherStands }

    // A reference means the first value under its name, or nothing.
    ensures name { law.NameMeansValue }

    // With an offset, or an offset and a length, behind a colon it means that part of the value.
    ensures part { law.PartMeansPart }

    // With `(` or `$` in its name it stands as it is written.
    ensures written { law.CallStands }
{}
