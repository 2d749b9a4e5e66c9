//! What the value of an attribute says.

ghost use Rattle.fs_text.specs.Texts.{Text};
ghost use Rattle.fs_xml.specs.Answers.{ValueGives};
ghost use Rattle.fs_doc.specs.Values.{value_read};

use crate::globals::replace;
use fs_text::Txt;
use fs_vars::Vars;
use fs_xml::{ValueStop, decode};
use std::alloc::Global;

/// The text of a value that ends at an offset: its entities are decoded, and then the globals replaced. In a foreign
/// element a `<` is allowed, and nothing is replaced.
#[tactic(auto, unfolding(crate::specs::Values::value_read))]
pub(crate) fn read_value(
    alloc: Global,
    foreign: bool,
    globals: &Vars,
    end: usize,
    value: &[u8],
) -> Result<Txt, ValueStop>
    ensures { ValueGives (λ (t : Text). t) result (value_read foreign globals.now.pairs end value.now) }
{
    let decoded = decode(alloc, foreign, end, value)?;
    let bytes = if foreign {
        decoded
    } else {
        replace(alloc, globals, &decoded)?
    };
    let text = Txt::from_vec(bytes)?;
    Ok(text)
}
