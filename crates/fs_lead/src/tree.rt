//! The lead of a pattern that was read.
ghost use Rattle.std.specs.Prelude.{◌≡◌, IfOk, IfSome};
ghost use Rattle.regex_hir.specs.Meaning.{meaning};
ghost use Rattle.fs_lead.specs.Leads.{IsLead, whole};

use crate::lead::Lead;
use crate::shared::few;
use fs_text::Memory;
use regex_extract::{is_anchored_start, prefixes};
use regex_hir::{Hir, Look};
use std::alloc::Global;

/// The lead of a pattern.
pub(crate) fn lead_of(alloc: Global, hir: &Hir) -> Result<Lead, Memory>
    ensures { IfOk result (IsLead (meaning hir.now)) }
{
    if let Some(text) = whole(hir) {
        return Ok(Lead::Whole(Vec::from_slice(alloc, text)?));
    }
    if !is_anchored_start(hir) {
        return Ok(Lead::Unknown);
    }
    match prefixes(alloc, hir)? {
        Some(texts) => Ok(Lead::Starts(few(alloc, texts)?)),
        None => Ok(Lead::Unknown),
    }
}

/// The text between `^` and `$`, where a pattern is no more than that.
fn whole(hir: &Hir) -> Option<&[u8]>
    ensures { IfSome result (λ text. meaning hir.now ≡ whole text.now) }
{
    let Hir::Concat(parts) = hir else {
        return None;
    };
    match parts.as_slice() {
        [
            Hir::Look(Look::Start),
            Hir::Literal(text),
            Hir::Look(Look::End),
        ] => { Some(text.as_slice()) }
        _ => None,
    }
}
