//! The lead of a pattern.

ghost use Rattle.std.specs.Prelude.{◌≡◌, is_some, IfOk, IfSome};
ghost use Rattle.regex.specs.Patterns.{Re, find};
ghost use Rattle.fs_lead.specs.Leads.{IsLead, IsLeadOf, begins_with_any};

use crate::tree::lead_of;
use fs_text::Memory;
use regex_syntax::{Config, ErrorKind};
use std::alloc::Global;

/// What is known of the values in which a pattern finds something.
#[derive(Drop)]
pub enum Lead {
    /// They are this text, and no other.
    Whole(Vec<u8>),
    /// Each begins with one of these texts.
    Starts(Vec<Vec<u8>>),
    /// Nothing.
    Unknown,
}

impl Lead {
    /// The lead of the pattern of a text. Of a text that is no pattern nothing is known.
    pub fn of(alloc: Global, text: &str) -> Result<Lead, Memory>
        ensures { IfOk result (IsLeadOf text.now) }
    {
        let config = Config {
            utf8: false,
            ..Config::default()
        };
        match regex_syntax::parse(alloc, text, &config) {
            Ok(parsed) => Ok(lead_of(alloc, &parsed.hir)?),
            Err(error) if error.kind == ErrorKind::OutOfMemory => Err(Memory),
            Err(_) => Ok(Lead::Unknown),
        }
    }

    /// Whether the pattern finds something in a value, where the lead tells.
    pub fn tells(&self, value: &[u8]) -> Option<bool>
        ensures { (re : Re) → IsLead re self.now → IfSome result (λ found. found ≡ is_some (find re value.now 0)) }
    {
        match self {
            Lead::Whole(text) => Some(value == text.as_slice()),
            Lead::Starts(texts) if !begins_with_any(texts.as_slice(), value) => Some(false),
            _ => None,
        }
    }
}

/// Whether a value begins with one of these texts.
fn begins_with_any(texts: &[Vec<u8>], value: &[u8]) -> bool
    ensures { result ≡ begins_with_any texts.now value.now }
{
    texts.iter().any(|text| value.starts_with(text.as_slice()))
}
