//! What several texts begin with.
ghost use Rattle.std.specs.Prelude.{◌≡◌, ℕ, true, nat_eq, List, All, IfOk};
ghost use Rattle.std.specs.List.{starts_with};
ghost use Rattle.fs_lead.specs.Leads.{begins_with_any};

use fs_text::Memory;
use std::alloc::Global;

/// A lead has no more texts than this, since a value is compared with each.
const MOST_TEXTS: usize = 16;

/// These texts, or what all of them begin with, where they are too many. A value that begins with one of the texts
/// begins with one of those as well.
pub(crate) fn few(alloc: Global, texts: Vec<Vec<u8>>) -> Result<Vec<Vec<u8>>, Memory>
    ensures { IfOk result (λ kept. (value : List ℕ) → begins_with_any texts.items value ≡ true
        → begins_with_any kept.items value ≡ true) }
{
    if texts.len() <= MOST_TEXTS {
        return Ok(texts);
    }
    let text = Vec::from_slice(alloc, shared(texts.as_slice()))?;
    let mut kept = Vec::new(alloc);
    kept.push(text)?;
    Ok(kept)
}

/// What all of these texts begin with.
fn shared(texts: &[Vec<u8>]) -> &[u8]
    ensures { All (λ text. starts_with nat_eq text.items result.now ≡ true) texts.now }
{
    let Some(first) = texts.first() else {
        return &[];
    };
    let mut shared = first.as_slice();
    for text in texts {
        shared = common(shared, text.as_slice());
    }
    shared
}

/// What two texts begin with.
fn common<'a>(first: &'a [u8], second: &[u8]) -> &'a [u8]
    ensures first { starts_with nat_eq first.now result.now ≡ true }
    ensures second { starts_with nat_eq second.now result.now ≡ true }
{
    for i in 0..first.len() {
        if i >= second.len() || first[i] != second[i] {
            return &first[..i];
        }
    }
    first
}
